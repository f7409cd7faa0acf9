//! What waits in a box: bytes that the client has not got, and turns that are still to come.

ghost use Rattle.std.specs.Prelude.{◌≡◌, ◌==◌, ◌≤◌, ◌++◌, ◌∷◌, [], OnOk, OnErr, MatchOption, length, drop, vec_len};
ghost use Rattle.std.specs.Option.{option_copied};
ghost use Rattle.share_box.specs.Schedule.{front_of, turns_behind};

use crate::schedule::{Turn, TurnList};
use smb_base::NoMemory;
use std::alloc::Global;
use std::marker::Model;

/// Bytes that wait. A contract sees the list of them.
///
/// They lie in `held` from `start` on; the bytes before it were given. These are dropped once they are no fewer than those that
/// wait, so that each byte is moved a bounded number of times.
#[derive(Drop)]
pub struct Waiting {
    held: Vec<u8>,
    start: usize,
}

impl Model for Waiting {
    ghost use Rattle.std.specs.Prelude.{List, ℕ, ◌≤◌, drop, vec_len};

    ghost Value = { List ℕ };

    ghost view = { λ w. drop w.start w.held.items };

    ghost invariant = { λ w. w.start ≤ vec_len w.held };
}

impl Waiting {
    // No byte. It takes no memory.
    pub(crate) fn new(alloc: Global) -> Waiting
        ensures { result ≡ [] }
    {
        Waiting {
            held: Vec::new(alloc),
            start: 0,
        }
    }

    // Lends the bytes.
    pub(crate) fn as_slice(&self) -> &[u8]
        ensures { result.now ≡ self.now }
    {
        &self.held[self.start..]
    }

    // Whether there is none.
    pub(crate) fn is_empty(&self) -> bool
        ensures { result ≡ (length self.now == 0) }
    {
        self.as_slice().is_empty()
    }

    // Adds bytes at the end. For want of memory nothing is changed.
    pub(crate) fn add(&mut self, bytes: &[u8]) -> Result<(), NoMemory>
        ensures ok { OnOk result (self.new ≡ self.old ++ bytes.now) }
        ensures err { OnErr result (self.new ≡ self.old) }
    {
        self.close_up();
        self.append(bytes)
    }

    // Drops the bytes that were given, once they are no fewer than those that wait.
    fn close_up(&mut self)
        ensures { self.new ≡ self.old }
    {
        if 0 < self.start && self.held.len() - self.start <= self.start {
            drop_front(&mut self.held, self.start);
            self.start = 0;
        }
    }

    fn append(&mut self, bytes: &[u8]) -> Result<(), NoMemory>
        ensures ok { OnOk result (self.new ≡ self.old ++ bytes.now) }
        ensures err { OnErr result (self.new ≡ self.old) }
    {
        self.held.extend_from_slice(bytes)?;
        Ok(())
    }

    // Goes past so many bytes, which were given.
    pub(crate) fn advance(&mut self, n: usize)
        requires { n ≤ length self.old }
        ensures { self.new ≡ drop n self.old }
    {
        self.start += n;
    }
}

// Drops the first bytes of a vector, and moves the others to the front.
fn drop_front(held: &mut Vec<u8>, count: usize)
    requires { count ≤ vec_len held.old }
    ensures { held.new.items ≡ drop count held.old.items }
{
    let len = held.len();
    held.copy_within(count..len, 0);
    held.truncate(len - count);
}

/// Turns that are to come. A contract sees the list of them, the next one first.
#[derive(Drop)]
pub struct TurnsToCome {
    // The next one last.
    held: Vec<Turn>,
}

impl Model for TurnsToCome {
    ghost use Rattle.std.specs.Prelude.{List, reverse};
    ghost use Rattle.share_box.specs.declared.schedule.Turn.{Turn};

    ghost Value = { List Turn };

    ghost view = { λ c. reverse c.held.items };
}

impl TurnsToCome {
    // These turns. It takes no memory.
    pub(crate) fn of(turns: TurnList) -> TurnsToCome
        ensures { result ≡ turns }
    {
        let mut held = turns.into_vec();
        held.reverse();
        TurnsToCome { held }
    }

    // Lends the next turn.
    pub(crate) fn front(&self) -> Option<&Turn>
        ensures { option_copied result ≡ front_of self.now }
    {
        self.held.last()
    }

    // Takes the next turn off.
    pub(crate) fn take(&mut self) -> Option<Turn>
        ensures { MatchOption result ((self.old ≡ []) × (self.new ≡ [])) (λ turn. self.old ≡ turn ∷ self.new) }
    {
        self.held.pop()
    }

    // Goes past the next turn.
    pub(crate) fn pass(&mut self)
        ensures { self.new ≡ turns_behind self.old }
    {
        let _ = self.take();
    }
}
