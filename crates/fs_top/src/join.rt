//! The connects of a run.

ghost use Rattle.std.specs.Prelude.{◌≤◌};
ghost use Rattle.smb_link.specs.Came.{seen_by};
ghost use Rattle.smb_link.specs.Once.{WentOnlyTo};
ghost use Rattle.fs_top.specs.Connects.{CutsOnce};
ghost use Rattle.fs_top.specs.Running.{Joins};

use crate::run_end::End;
use smb_link::{Link, LinkFail};

/// Connects, as many times in a row as are tried.
pub(crate) fn join<L: Link>(link: &mut L, host: &str, port: u16, tries: u32) -> Result<(), End>
    requires some { 1 ≤ tries }
    ensures joins { Joins tries (L.stands link.old) result (seen_by L.story L.connect_faults L.cuts L.quiets link.old) (seen_by L.story L.connect_faults L.cuts L.quiets link.new) }
    ensures places { WentOnlyTo (record { host = host.now; port = port }) (L.places link.old) (L.places link.new) }
    ensures own_cuts { CutsOnce (L.stands link.old) (L.own_cuts link.old) (L.own_cuts link.new) }
{
    for _tried in 0..tries {
        match link.connect(host, port) {
            Ok(()) => return Ok(()),
            Err(LinkFail::Failed) => {}
            Err(LinkFail::NoMemory) => return Err(End::Memory),
        }
    }
    Err(End::Connects(tries))
}
