//! One ping.

ghost use Rattle.std.specs.Prelude.{◌≡◌, ◌⊎◌, List};
ghost use Rattle.smb_link.specs.declared.event.Event.{Event};
ghost use Rattle.smb_link.specs.Came.{seen_by, Came};
ghost use Rattle.smb_link.specs.Once.{WentOnlyTo};
ghost use Rattle.fs_top.specs.Connects.{CutsOnce};
ghost use Rattle.fs_top.specs.Ping.Run.{PingEnds};

pub(crate) mod ending;
mod listen;
mod request;
mod verdict;

use ending::Ending;
use listen::listen;
use request::request_frame;
use smb_link::{Link, LinkFail};
use std::alloc::Global;

/// Connects once, sends the request and waits for the first frame.
pub fn ping<L: Link>(alloc: Global, link: &mut L, host: &str, port: u16, seed: [u8; 16]) -> Ending
    ensures ends { (events : List Event)
        × Came events (seen_by L.story L.connect_faults L.cuts L.quiets link.old) (seen_by L.story L.connect_faults L.cuts L.quiets link.new)
        × ((result ≡ Ending.Memory) ⊎ PingEnds (L.stands link.old) seed events result) }
    ensures places { WentOnlyTo (record { host = host.now; port = port }) (L.places link.old) (L.places link.new) }
    ensures own_cuts { CutsOnce (L.stands link.old) (L.own_cuts link.old) (L.own_cuts link.new) }
{
    let frame = match request_frame(alloc, seed) {
        Ok(frame) => frame,
        Err(_) => return Ending::Memory,
    };
    match link.connect(host, port) {
        Ok(()) => {}
        Err(LinkFail::Failed) => return Ending::Connects,
        Err(LinkFail::NoMemory) => return Ending::Memory,
    }
    match link.send(frame.as_slice()) {
        Ok(()) => {}
        Err(LinkFail::Failed) => return Ending::Cuts,
        Err(LinkFail::NoMemory) => return Ending::Memory,
    }
    listen(alloc, link)
}
