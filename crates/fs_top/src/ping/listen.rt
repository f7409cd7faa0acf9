//! The wait for the first frame.

ghost use Rattle.std.specs.Prelude.{◌≡◌, ◌++◌, List, IfSome, IfNone, MatchOption, ◌⊎◌};
ghost use Rattle.smb_head.specs.Stream.{first_of, Partial};
ghost use Rattle.smb_link.specs.declared.event.Event.{Event};
ghost use Rattle.smb_link.specs.Came.{seen_by, Came};
ghost use Rattle.fs_top.specs.Ping.Tale.{FirstEnds, Heard};
ghost use Rattle.fs_top.specs.Ping.Verdict.{EndsWait};

use crate::ping::ending::{Ending, FirstFrameFault};
use crate::ping::verdict::judge;
use smb_head::{FrameFault, Frames};
use smb_link::{Got, Link};
use std::alloc::Global;

/// How many waits in vain in a row are the end.
const PATIENCE: u16 = 300;

/// Waits for the first frame and says what it makes of the ping.
pub fn listen<L: Link>(alloc: Global, link: &mut L) -> Ending
    ensures heard { Heard (seen_by L.story L.connect_faults L.cuts L.quiets link.old) (seen_by L.story L.connect_faults L.cuts L.quiets link.new) result }
    ensures ends_wait { EndsWait result }
    ensures places { (L.places link.new ≡ L.places link.old) × (L.own_cuts link.new ≡ L.own_cuts link.old) }
{
    let mut frames = Frames::new(alloc);
    let mut buf = [0; 4096];
    let mut quiets = 0;
    loop {
        let room = frames.lacks().min(buf.len());
        match link.receive(&mut buf[..room]) {
            Got::Bytes(n) => {
                quiets = 0;
                if let Some(ending) = take_in(&mut frames, &buf[..n]) {
                    return ending;
                }
            }
            Got::Quiet => {
                quiets += 1;
                if quiets == PATIENCE {
                    return Ending::Cuts;
                }
            }
            Got::Closed => return Ending::Cuts,
            Got::NoMemory => return Ending::Memory,
        }
    }
}

/// Takes a piece in, and says what the first frame makes of the ping once it is there.
fn take_in(frames: &mut Frames, piece: &[u8]) -> Option<Ending>
    ensures goes_on { IfNone result ((frames.new ≡ frames.old ++ piece.now) × (first_of (frames.old ++ piece.now) ≡ Partial)) }
    ensures ends { IfSome result (λ ending. ending ≡ Ending.Memory ⊎ FirstEnds (first_of (frames.old ++ piece.now)) ending) }
    ensures ends_wait { IfSome result EndsWait }
{
    if frames.feed(piece).is_err() {
        return Some(Ending::Memory);
    }
    match frames.next() {
        Ok(Some(message)) => Some(judge(message.as_slice())),
        Ok(None) => None,
        Err(FrameFault::NoMemory) => Some(Ending::Memory),
        Err(_) => Some(Ending::Frame(FirstFrameFault::Length)),
    }
}
