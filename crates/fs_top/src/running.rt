//! The calls that were begun and not answered.

ghost use Rattle.std.specs.Prelude.{◌≡◌, ◌++◌, ◌∷◌, [], OnOk, OnErr};
ghost use Rattle.fs_top.specs.Turns.{calls_but};

use smb_base::NoMemory;
use std::alloc::Global;
use std::marker::Model;

/// The numbers of the calls that were begun and not answered, in the order of beginning.
#[derive(Drop)]
pub(crate) struct Running {
    held: Vec<u64>,
}

impl Model for Running {
    ghost use Rattle.std.specs.Prelude.{List, ℕ};

    ghost Value = { List ℕ };

    ghost view = { λ r. r.held.items };
}

impl Running {
    /// No call. It takes no memory.
    pub(crate) fn new(alloc: Global) -> Running
        ensures { result ≡ [] }
    {
        Running {
            held: Vec::new(alloc),
        }
    }

    /// Lends the numbers.
    pub(crate) fn as_slice(&self) -> &[u64]
        ensures { result.now ≡ self.now }
    {
        self.held.as_slice()
    }

    /// A call begins. For want of memory nothing is changed.
    pub(crate) fn begin(&mut self, number: u64) -> Result<(), NoMemory>
        ensures ok { OnOk result (self.new ≡ self.old ++ number ∷ []) }
        ensures err { OnErr result (self.new ≡ self.old) }
    {
        self.held.push(number)?;
        Ok(())
    }

    /// A call is answered.
    pub(crate) fn end(&mut self, number: u64)
        ensures { self.new ≡ calls_but number self.old }
    {
        self.held.retain(|n| *n != number);
    }
}
