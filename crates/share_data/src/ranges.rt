//! Ranges of bytes, and the locks on them.

ghost use Rattle.std.specs.Prelude.{◌≡◌};
ghost use Rattle.share_state.specs.Ranges.{overlaps, is_lock_on, is_in_range, is_read_locked, is_write_locked, is_taken_range};

use share_state::{Lock, Open, Share};

// Two ranges, each with its first byte and its length, have a byte in common.
fn overlaps(one: u64, length: u64, other: u64, size: u64) -> bool
    ensures { result ≡ overlaps one length other size }
{
    if one <= other {
        other - one < length && 0 < size
    } else {
        one - other < size && 0 < length
    }
}

// The open that holds a lock is of this node.
fn is_lock_on(opens: &[Open], node: u64, lock: &Lock) -> bool
    ensures { result ≡ is_lock_on opens.now node lock.now }
{
    opens
        .iter()
        .any(|open| open.number == lock.holder && open.node == node)
}

// A lock is on the file of an open and has a byte of this range.
fn is_in_range(s: &Share, one: &Open, offset: u64, length: u64, lock: &Lock) -> bool
    ensures { result ≡ is_in_range s.now one.now offset length lock.now }
{
    is_lock_on(s.opens.as_slice(), one.node, lock)
        && overlaps(offset, length, lock.offset, lock.length)
}

// The open may not read all of this range.
pub(crate) fn is_read_locked(s: &Share, one: &Open, offset: u64, length: u64) -> bool
    ensures { result ≡ is_read_locked s.now one.now offset length }
{
    s.locks.as_slice().iter().any(|lock| {
        lock.exclusive && lock.holder != one.number && is_in_range(s, one, offset, length, lock)
    })
}

// The open may not write all of this range.
pub(crate) fn is_write_locked(s: &Share, one: &Open, offset: u64, length: u64) -> bool
    ensures { result ≡ is_write_locked s.now one.now offset length }
{
    s.locks.as_slice().iter().any(|lock| {
        (!lock.exclusive || lock.holder != one.number) && is_in_range(s, one, offset, length, lock)
    })
}

// A lock on this range would meet another one, and one of the two is exclusive.
pub(crate) fn is_taken_range(
    s: &Share,
    one: &Open,
    offset: u64,
    length: u64,
    exclusive: bool,
) -> bool
    ensures { result ≡ is_taken_range s.now one.now offset length exclusive }
{
    s.locks.as_slice().iter().any(|lock| {
        (exclusive || lock.exclusive) && is_in_range(s, one, offset, length, lock)
    })
}
