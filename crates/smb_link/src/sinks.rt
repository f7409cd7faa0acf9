//! Sinks in memory.

ghost use Rattle.std.specs.Prelude.{◌≡◌, ◌≤◌, ◌<◌, ◌∷◌, [], IfOk, is_err, true, Some, length, List, ℕ};
ghost use Rattle.smb_link.specs.Count.{counted};
ghost use Rattle.smb_link.specs.Flow.{written_after, stalled};
ghost use Rattle.smb_link.specs.Memory.{is_to_fail};

use crate::faults::Failed;
use crate::traits::Sink;
use smb_base::{Bytes, U64List};
use std::alloc::Global;
use std::marker::Model;

/// A sink that keeps what it is given, whose writes with the given numbers, counted from 0, fail. A write for which memory runs
/// out fails too.
#[derive(Debug, Drop)]
pub struct MemSink {
    held: Bytes,
    fail: U64List,
    calls: u64,
    faults: u64,
}

impl Model for MemSink {
    ghost use Rattle.smb_link.specs.Memory.{HeldSink};

    ghost Value = { HeldSink };

    ghost view = { λ s. record { written = s.held; fail = s.fail; calls = s.calls; faults = s.faults } };
}

impl MemSink {
    /// An empty sink; `fail` has the numbers, from 0, of the writes that fail.
    pub fn new(alloc: Global, fail: U64List) -> MemSink
        ensures { result ≡ record { written = []; fail = fail; calls = 0; faults = 0 } }
    {
        MemSink {
            held: Bytes::new(alloc),
            fail,
            calls: 0,
            faults: 0,
        }
    }

    /// Lends what was written.
    pub fn written(&self) -> &[u8]
        ensures { result.now ≡ self.now.written }
    {
        self.held.as_slice()
    }
}

impl Sink for MemSink {
    ghost written = { λ s. Some s.written };

    ghost faults = { λ s. s.faults };

    ghost stalls = { λ _. 0 };

    fn write(&mut self, bytes: &[u8]) -> Result<usize, Failed>
        ensures count { IfOk result (λ n. n ≤ length bytes.now) }
        ensures written { Some self.new.written ≡ written_after (Some self.old.written) result bytes.now }
        ensures faults { self.new.faults ≡ counted self.old.faults (is_err result) }
        ensures stalls { 0 ≡ counted 0 (stalled result bytes.now) }
        ensures whole { IfOk result (λ n. n ≡ length bytes.now) }
        ensures planned { is_to_fail self.old.fail self.old.calls ≡ true → is_err result ≡ true }
        ensures calls { self.new.calls ≡ counted self.old.calls true }
        ensures plan { self.new.fail ≡ self.old.fail }
    {
        let call = self.calls;
        self.calls = call.saturating_add(1);
        if self.fail.as_slice().contains(&call) {
            self.faults = self.faults.saturating_add(1);
            return Err(Failed);
        }
        match self.held.extend(bytes) {
            Ok(()) => Ok(bytes.len()),
            Err(_) => {
                self.faults = self.faults.saturating_add(1);
                Err(Failed)
            }
        }
    }
}

/// A sink that keeps what it is given. Only want of memory makes a write fail.
#[derive(Debug, Drop)]
pub struct SureSink {
    held: Bytes,
    faults: u64,
}

impl Model for SureSink {
    ghost use Rattle.smb_link.specs.Memory.{SureHeld};

    ghost Value = { SureHeld };

    ghost view = { λ s. record { written = s.held; faults = s.faults } };
}

impl SureSink {
    /// An empty sink.
    pub fn new(alloc: Global) -> SureSink
        ensures { result ≡ record { written = []; faults = 0 } }
    {
        SureSink {
            held: Bytes::new(alloc),
            faults: 0,
        }
    }

    /// Lends what was written.
    pub fn written(&self) -> &[u8]
        ensures { result.now ≡ self.now.written }
    {
        self.held.as_slice()
    }
}

impl Sink for SureSink {
    ghost written = { λ s. Some s.written };

    ghost faults = { λ s. s.faults };

    ghost stalls = { λ _. 0 };

    fn write(&mut self, bytes: &[u8]) -> Result<usize, Failed>
        ensures count { IfOk result (λ n. n ≤ length bytes.now) }
        ensures written { Some self.new.written ≡ written_after (Some self.old.written) result bytes.now }
        ensures faults { self.new.faults ≡ counted self.old.faults (is_err result) }
        ensures stalls { 0 ≡ counted 0 (stalled result bytes.now) }
        ensures whole { IfOk result (λ n. n ≡ length bytes.now) }
    {
        match self.held.extend(bytes) {
            Ok(()) => Ok(bytes.len()),
            Err(_) => {
                self.faults = self.faults.saturating_add(1);
                Err(Failed)
            }
        }
    }
}
