//! Locked ranges.

ghost use Rattle.std.specs.Prelude.{◌≡◌, ◌++◌, ◌∷◌, [], OnOk, OnErr};
ghost use Rattle.std.specs.List.{list_any, position};
ghost use Rattle.share_state.specs.Close.{locks_but};
ghost use Rattle.share_state.specs.Locking.{is_exactly, unlocked};

use smb_base::NoMemory;
use std::alloc::Global;
use std::marker::Model;

/// A range of a file that is locked for an open (MS-FSA 2.1.1.8).
#[derive(Clone, Copy)]
pub struct Lock {
    /// The number of the open that holds it.
    pub holder: u64,
    /// Its first byte.
    pub offset: u64,
    /// How many bytes it has.
    pub length: u64,
    /// No other open may read there; else none may write there.
    pub exclusive: bool,
}

/// Locked ranges. A contract sees the list of them.
#[derive(Drop)]
pub struct LockList {
    held: Vec<Lock>,
}

impl Model for LockList {
    ghost use Rattle.std.specs.Prelude.{List};
    ghost use Rattle.share_state.specs.declared.lock.Lock.{Lock};

    ghost Value = { List Lock };

    ghost view = { λ l. l.held.items };
}

impl LockList {
    /// No range. It takes no memory.
    pub fn new(alloc: Global) -> LockList
        ensures { result ≡ [] }
    {
        LockList {
            held: Vec::new(alloc),
        }
    }

    /// Lends the ranges.
    pub fn as_slice(&self) -> &[Lock]
        ensures { result.now ≡ self.now }
    {
        self.held.as_slice()
    }

    /// Adds one at the end. For want of memory nothing is changed.
    pub fn push(&mut self, item: Lock) -> Result<(), NoMemory>
        ensures ok { OnOk result (self.new ≡ self.old ++ item ∷ []) }
        ensures err { OnErr result (self.new ≡ self.old) }
    {
        self.held.push(item)?;
        Ok(())
    }

    /// Takes the ranges off that this open holds.
    pub fn release(&mut self, holder: u64)
        ensures { self.new ≡ locks_but holder self.old }
    {
        release_from(&mut self.held, holder);
    }

    /// Takes the first range off that this open holds on exactly these bytes.
    pub fn unlock(&mut self, holder: u64, offset: u64, length: u64)
        ensures { self.new ≡ unlocked holder offset length self.old }
    {
        if let Some(place) = place_of(&self.held, holder, offset, length) {
            self.held.remove(place);
        }
    }
}

/// Some lock is this open's on exactly these bytes.
pub fn has_lock(locks: &[Lock], holder: u64, offset: u64, length: u64) -> bool
    ensures { result ≡ list_any (is_exactly holder offset length) locks.now }
{
    locks
        .iter()
        .any(|lock| is_exactly(holder, offset, length, lock))
}

// The lock is this open's on exactly these bytes.
fn is_exactly(holder: u64, offset: u64, length: u64, lock: &Lock) -> bool
    ensures { result ≡ is_exactly holder offset length lock.now }
{
    lock.holder == holder && lock.offset == offset && lock.length == length
}

// Where the first lock stands that is this open's on exactly these bytes.
fn place_of(locks: &[Lock], holder: u64, offset: u64, length: u64) -> Option<usize>
    ensures { result ≡ position (is_exactly holder offset length) locks.now }
{
    locks
        .iter()
        .position(|lock| is_exactly(holder, offset, length, lock))
}

// Takes the ranges off that this open holds.
fn release_from(locks: &mut Vec<Lock>, holder: u64)
    ensures { locks.new.items ≡ locks_but holder locks.old.items }
{
    locks.retain(|lock| lock.holder != holder);
}
