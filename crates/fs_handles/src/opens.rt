//! Opens that are kept.

ghost use Rattle.std.specs.Prelude.{◌≡◌, [], None, Some, IfOk, IfErr, OnErr};
ghost use Rattle.std.specs.Option.{option_copied};
ghost use Rattle.fs_handles.specs.Opens.{open_at, Changes};

use crate::open::{KeptOpen, WireOpen};
use slab::Slab;
use std::alloc::Global;
use std::marker::Model;

/// Opens, each at a number of its own. It keeps what is known of them, and may itself be let go. A contract sees what stands at each
/// number from 0 on. Each call takes constant time.
#[derive(Drop)]
pub struct Opens {
    held: Slab<KeptOpen>,
}

impl Model for Opens {
    ghost use Rattle.std.specs.Prelude.{List, Option};
    ghost use Rattle.fs_handles.specs.declared.open.KeptOpen.{KeptOpen};

    ghost Value = { List (Option KeptOpen) };

    ghost view = { λ o. o.held.slots };
}

impl Opens {
    /// No open. It takes no memory.
    pub fn new(alloc: Global) -> Opens
        ensures { result ≡ [] }
    {
        Opens {
            held: Slab::new(alloc),
        }
    }

    /// Keeps an open, and gives the number at which it stands now. For want of memory nothing is changed, and the open comes back.
    pub fn put(&mut self, o: WireOpen) -> Result<usize, WireOpen>
        // Nothing stood there, and at every other number stands what stood there.
        ensures put { IfOk result (λ at. (open_at self.old at ≡ None) × Changes self.old self.new at (Some o)) }
        ensures back { IfErr result (λ given. given ≡ o) }
        ensures same { OnErr result (self.new ≡ self.old) }
    {
        match self.held.insert(o.keep()) {
            Ok(at) => Ok(at),
            Err(failed) => Err(WireOpen::of(failed.value)),
        }
    }

    /// Takes out the open at a number, if one stands there. Then nothing stands there.
    pub fn take(&mut self, at: usize) -> Option<WireOpen>
        ensures open { result ≡ open_at self.old at }
        ensures rest { Changes self.old self.new at None }
    {
        match self.held.try_remove(at) {
            Some(kept) => Some(WireOpen::of(kept)),
            None => None,
        }
    }

    /// Lends what is known of the open at a number, if one stands there.
    pub fn seen(&self, at: usize) -> Option<&KeptOpen>
        ensures { option_copied result ≡ open_at self.now at }
    {
        self.held.get(at)
    }
}
