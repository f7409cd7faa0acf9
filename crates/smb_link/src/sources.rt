//! Sources in memory.

ghost use Rattle.std.specs.Prelude.{◌≡◌, ◌≤◌, ◌<◌, ◌∷◌, [], IfOk, IsTrue, is_err, is_ok, min, true, Some, length, take, drop};
ghost use Rattle.smb_link.specs.Count.{counted};
ghost use Rattle.smb_link.specs.Flow.{left_after, GaveFirst};
ghost use Rattle.smb_link.specs.Memory.{is_to_fail};

use crate::faults::Failed;
use crate::traits::Source;
use smb_base::{Bytes, U64List};
use std::marker::Model;

/// A source of these bytes, whose reads with the given numbers, counted from 0, fail.
#[derive(Debug, Drop)]
pub struct MemSource {
    bytes: Bytes,
    at: usize,
    fail: U64List,
    calls: u64,
    faults: u64,
}

impl Model for MemSource {
    ghost use Rattle.std.specs.Prelude.{List, ℕ, drop, length, ◌≤◌};
    ghost use Rattle.smb_link.specs.Memory.{HeldSource};

    ghost Value = { HeldSource };

    ghost view = { λ s. record { left = drop s.at s.bytes; fail = s.fail; calls = s.calls; faults = s.faults } };

    ghost invariant = { λ s. s.at ≤ length s.bytes };
}

impl MemSource {
    /// A source of these bytes; `fail` has the numbers, from 0, of the reads that fail.
    pub fn new(bytes: Bytes, fail: U64List) -> MemSource
        ensures { result ≡ record { left = bytes; fail = fail; calls = 0; faults = 0 } }
    {
        MemSource {
            bytes,
            at: 0,
            fail,
            calls: 0,
            faults: 0,
        }
    }
}

impl Source for MemSource {
    ghost left = { λ s. Some s.left };

    ghost faults = { λ s. s.faults };

    fn read(&mut self, buf: &mut [u8]) -> Result<usize, Failed>
        ensures count { IfOk result (λ n. n ≤ length buf.old) }
        ensures bytes { GaveFirst (Some self.old.left) result buf.new }
        ensures left { Some self.new.left ≡ left_after (Some self.old.left) result }
        ensures faults { self.new.faults ≡ counted self.old.faults (is_err result) }
        ensures planned { is_err result ≡ is_to_fail self.old.fail self.old.calls }
        ensures calls { self.new.calls ≡ counted self.old.calls true }
        ensures plan { self.new.fail ≡ self.old.fail }
    {
        let call = self.calls;
        self.calls = call.saturating_add(1);
        if self.fail.as_slice().contains(&call) {
            self.faults = self.faults.saturating_add(1);
            return Err(Failed);
        }
        let n = give(self.bytes.as_slice(), self.at, buf);
        self.at += n;
        Ok(n)
    }
}

/// A source of these bytes that never fails.
#[derive(Debug, Drop)]
pub struct SureSource {
    bytes: Bytes,
    at: usize,
}

impl Model for SureSource {
    ghost use Rattle.std.specs.Prelude.{List, ℕ, drop, length, ◌≤◌};

    ghost Value = { List ℕ };

    ghost view = { λ s. drop s.at s.bytes };

    ghost invariant = { λ s. s.at ≤ length s.bytes };
}

impl SureSource {
    /// A source of these bytes.
    pub fn new(bytes: Bytes) -> SureSource
        ensures { result ≡ bytes }
    {
        SureSource { bytes, at: 0 }
    }
}

impl Source for SureSource {
    ghost use Rattle.std.specs.Prelude.{Some};

    ghost left = { λ s. Some s };

    ghost faults = { λ _. 0 };

    fn read(&mut self, buf: &mut [u8]) -> Result<usize, Failed>
        ensures count { IfOk result (λ n. n ≤ length buf.old) }
        ensures bytes { GaveFirst (Some self.old) result buf.new }
        ensures left { Some self.new ≡ left_after (Some self.old) result }
        ensures faults { 0 ≡ counted 0 (is_err result) }
        ensures sure { IsTrue (is_ok result) }
    {
        let n = give(self.bytes.as_slice(), self.at, buf);
        self.at += n;
        Ok(n)
    }
}

/// Copies what is left from `at` on into the front of the buffer, as much as fits.
fn give(bytes: &[u8], at: usize, buf: &mut [u8]) -> usize
    requires { at ≤ length bytes.now }
    ensures count { result ≡ min (length buf.old) (length (drop at bytes.now)) }
    ensures front { take result buf.new ≡ take result (drop at bytes.now) }
{
    let left = &bytes[at..];
    let n = left.len().min(buf.len());
    buf[..n].copy_from_slice(&left[..n]);
    n
}
