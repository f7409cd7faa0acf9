//! The calls that a run leaves unanswered.

ghost use Rattle.std.specs.Prelude.{◌≡◌, Option, option_map};
ghost use Rattle.smb_link.specs.Came.{seen_by};
ghost use Rattle.fs_top.specs.Printing.{held_by};
ghost use Rattle.fs_top.specs.Closing.{errno_by, Closes, ClosesWith};

use crate::output::answered;
use crate::run_end::End;
use crate::running::Running;
use fs_types::Answer;
use smb_base::Errno;
use smb_link::{Link, Sink};
use std::alloc::Global;

/// Answers the calls that are unanswered where a run ends, in the order of beginning, with the error number of the cause, where that has
/// one.
pub(crate) fn close_off<K: Sink, L: Link>(
    alloc: Global,
    running: &Running,
    out: &mut K,
    link: &mut L,
    end: End,
) -> End
    ensures closes { Closes running.now end result (seen_by L.story L.connect_faults L.cuts L.quiets link.old) (seen_by L.story L.connect_faults L.cuts L.quiets link.new) (held_by K.written K.faults K.stalls out.old) (held_by K.written K.faults K.stalls out.new) }
    ensures places { (L.places link.new ≡ L.places link.old) × (L.own_cuts link.new ≡ L.own_cuts link.old) }
{
    match errno_by(end) {
        Some(errno) => close_with(alloc, running.as_slice(), out, link, end, errno),
        None => end,
    }
}

/// The same with this error number.
fn close_with<K: Sink, L: Link>(
    alloc: Global,
    running: &[u64],
    out: &mut K,
    link: &mut L,
    end: End,
    errno: Errno,
) -> End
    ensures closes { ClosesWith errno.0 running.now end result (seen_by L.story L.connect_faults L.cuts L.quiets link.old) (seen_by L.story L.connect_faults L.cuts L.quiets link.new) (held_by K.written K.faults K.stalls out.old) (held_by K.written K.faults K.stalls out.new) }
    ensures places { (L.places link.new ≡ L.places link.old) × (L.own_cuts link.new ≡ L.own_cuts link.old) }
{
    for number in running {
        match answered(alloc, out, link, *number, Answer::Err(errno, None)) {
            Ok(()) => {}
            Err(other) => return other,
        }
    }
    end
}

/// The error number of a call that is unanswered at this end: EPROTO where the server sent what is wrong, EHOSTDOWN where the connection
/// is lost.
fn errno_by(end: End) -> Option<Errno>
    ensures { option_map (λ n. n.0) result ≡ errno_by end }
{
    match end {
        End::Frame(_, _) => Some(Errno::EPROTO),
        End::Cuts => Some(Errno::EHOSTDOWN),
        _ => None,
    }
}
