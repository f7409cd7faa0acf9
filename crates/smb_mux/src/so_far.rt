//! What the messages of a frame brought so far.

ghost use Rattle.std.specs.Prelude.{◌≡◌, Ok, IfOk, IfErr, Err};
ghost use Rattle.smb_mux.specs.Judged.{nothing, awaited_command, added, IsAnswer};
ghost use Rattle.smb_mux.specs.declared.look.Look.TheVariants.{Final};

use crate::fault::TakeFault;
use crate::look::Look;
use crate::taken::{Reply, Taken};
use smb_base::{Bytes, Mid};
use std::alloc::Global;
use std::collections::BTreeMap;
use std::marker::Model;

/// What the messages of a frame brought so far. A contract sees what that is.
#[derive(Drop)]
pub struct SoFar {
    taken: Taken,
    // The ids of the requests that were answered.
    answered: BTreeMap<u64, bool>,
}

impl Model for SoFar {
    ghost use Rattle.std.specs.Prelude.{◌≡◌, ℕ};
    ghost use Rattle.smb_mux.specs.declared.taken.Taken.{Taken};
    ghost use Rattle.smb_mux.specs.Answered.{IsIndex};

    ghost Value = { Taken };

    ghost view = { λ s. s.taken };

    ghost invariant = { λ s. IsIndex s.taken.replies s.answered.entries };
}

impl SoFar {
    /// Nothing.
    pub fn new(alloc: Global) -> SoFar
        ensures { result ≡ nothing }
    {
        SoFar {
            taken: Taken::new(alloc),
            answered: BTreeMap::new(alloc),
        }
    }

    /// The command of the request with this id, where it is in flight and was not answered so far.
    pub fn command_of(&self, flights: &BTreeMap<u64, u16>, mid: Mid) -> Option<u16>
        ensures { result ≡ awaited_command flights.now.entries self.now mid.0 }
    {
        if self.answered.contains_key(&mid.0) {
            return None;
        }
        match flights.get(&mid.0) {
            Some(command) => Some(*command),
            None => None,
        }
    }

    /// With one message more.
    pub fn with(self, alloc: Global, look: Look, part: &[u8]) -> Result<SoFar, TakeFault>
        ensures { IsAnswer (added look part.now self) result }
    {
        match look {
            Look::Final(mid) => self.with_reply(alloc, mid, part),
            Look::Interim(mid) => {
                let mut so_far = self;
                so_far.taken.interim.push(mid)?;
                Ok(so_far)
            }
            Look::Notice(note) => {
                let mut so_far = self;
                so_far.taken.breaks.push(note)?;
                Ok(so_far)
            }
            Look::Fault(fault) => Err(fault),
        }
    }

    // With one reply more.
    fn with_reply(self, alloc: Global, mid: Mid, part: &[u8]) -> Result<SoFar, TakeFault>
        ensures { IsAnswer (added (Final mid) part.now self) result }
    {
        let mut so_far = self;
        let part = Bytes::of(alloc, part)?;
        match so_far.answered.insert(mid.0, true) {
            Ok(_) => {}
            Err(_) => return Err(TakeFault::NoMemory),
        }
        so_far.taken.replies.push(Reply { mid, part })?;
        Ok(so_far)
    }

    /// What came.
    pub fn into_taken(self) -> Taken
        ensures { result ≡ self }
    {
        self.taken
    }
}
