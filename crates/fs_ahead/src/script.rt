//! A script, read one line ahead of the calls.

ghost use Rattle.std.specs.Prelude.{◌≡◌, ℕ, List, [], false, None, Option, IfSome, OnOk, option_copied, option_map};
ghost use Rattle.smb_link.specs.Count.{counted};
ghost use Rattle.fs_ahead.specs.Script.{coming_of, to_come, asked_then};
ghost use Rattle.fs_ahead.specs.Steps.{IsAhead, IsNext, IsHeldOrOver, Keeps, is_failed_now};

use crate::asked::{Asked, Over};
use crate::next::{Found, next_asked};
use fs_lines::Lines;
use smb_base::NoMemory;
use smb_link::Source;
use std::alloc::Global;
use std::marker::Model;

/// The lines of a script, with what the next of them asks for, once it was read. It goes with one source.
#[derive(Drop)]
pub struct Ahead {
    lines: Lines,
    held: Option<Asked>,
    over: Option<Over>,
}

impl Model for Ahead {
    ghost use Rattle.fs_ahead.specs.Script.{Place};

    ghost Value = { Place };

    ghost view = { λ a. record { lines = a.lines; held = a.held; over = a.over } };
}

impl Ahead {
    /// Nothing was read yet. It takes no memory.
    pub fn new(alloc: Global) -> Ahead
        ensures ahead { IsAhead 0 result }
        ensures starts { result ≡ record { lines = record { held = []; ended = false; number = 0 }; held = None; over = None } }

        // What is to come is all that the script asks for.
        ensures script { (left : Option (List ℕ)) → to_come result left ≡ option_map coming_of left }
    {
        Ahead {
            lines: Lines::new(alloc),
            held: None,
            over: None,
        }
    }

    /// Reads up to the next line that asks for something, where nothing is held and more may come. After a failure of the source no more
    /// comes, and nothing is held.
    ///
    /// # Errors
    ///
    /// It fails only for want of memory, and a line may then be lost.
    pub fn look<S: Source>(&mut self, alloc: Global, input: &mut S) -> Result<(), NoMemory>
        ensures ready { OnOk result (IsHeldOrOver self.new) }
        ensures stays { IsHeldOrOver self.old → self.new ≡ self.old }
        ensures unread { IsHeldOrOver self.old → input.new ≡ input.old }

        // What is to come stays the same, unless the source failed.
        ensures comes { OnOk result (Keeps self.old (S.left input.old) self.new (S.left input.new)) }
        ensures ahead { (last : ℕ) → IsAhead last self.old → IsAhead last self.new }
        ensures faults { S.faults input.new ≡ counted (S.faults input.old) (is_failed_now self.old.over self.new.over) }
    {
        if self.held.is_some() || self.over.is_some() {
            return Ok(());
        }
        match next_asked(alloc, &mut self.lines, input) {
            Ok(Found::Asked(asked)) => {
                self.held = Some(asked);
                Ok(())
            }
            Ok(Found::Over(over)) => {
                self.over = Some(over);
                Ok(())
            }
            Err(NoMemory) => Err(NoMemory),
        }
    }

    /// Lends what is held.
    pub fn held(&self) -> Option<&Asked>
        ensures { option_copied result ≡ self.now.held }
    {
        self.held.as_ref()
    }

    /// Takes what is held.
    pub fn take(&mut self) -> Option<Asked>
        ensures held { result ≡ self.old.held }
        ensures rest { self.new ≡ record self.old { held = None } }
        ensures ahead { (last : ℕ) → IsAhead last self.old → IsNext last result self.new }
        ensures more { IfSome result (λ asked. (last : ℕ) → IsAhead last self.old → self.new.over ≡ None) }

        // It is the first of what is to come, and the rest is still to come.
        ensures comes { (left : Option (List ℕ)) → to_come self.old left ≡ option_map (asked_then result) (to_come self.new left) }
    {
        self.held.take()
    }

    /// Why no more lines are read; none while more may come.
    pub fn over(&self) -> Option<Over>
        ensures { result ≡ self.now.over }
    {
        self.over
    }
}
