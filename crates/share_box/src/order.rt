//! Which of the requests that wait may be served: of each frame the oldest one.

ghost use Rattle.std.specs.Prelude.{◌≡◌, IfOk};
ghost use Rattle.std.specs.Option.{option_copied};
ghost use Rattle.share_state.specs.Sent.{sent_with};
ghost use Rattle.fs_plain.specs.World.{is_first_of_frame};
ghost use Rattle.share_box.specs.Order.{waiting_ids};

use share_state::Sent;
use smb_base::{Mid, NoMemory};
use std::alloc::Global;

// The first request with this id.
pub(crate) fn find(sent: &[Sent], mid: Mid) -> Option<&Sent>
    ensures { option_copied result ≡ sent_with mid sent.now }
{
    for one in sent {
        if one.mid.0 == mid.0 {
            return Some(one);
        }
    }
    None
}

// A request is the first of its frame.
pub(crate) fn is_first_of_frame(sent: &[Sent], one: &Sent) -> bool
    ensures { result ≡ is_first_of_frame sent.now one.now }
{
    for other in sent {
        if other.frame.0 == one.frame.0 {
            return other.mid.0 == one.mid.0;
        }
    }
    false
}

// The ids of the requests that may be served, in the order of their frames.
pub(crate) fn waiting_ids(alloc: Global, sent: &[Sent]) -> Result<Vec<Mid>, NoMemory>
    ensures { IfOk result (λ ids. ids.items ≡ waiting_ids sent.now) }
{
    let mut ids = Vec::new(alloc);
    for one in sent {
        if is_first_of_frame(sent, one) {
            ids.push(one.mid)?;
        }
    }
    Ok(ids)
}
