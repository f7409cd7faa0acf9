//! A clock in memory.

ghost use Rattle.std.specs.Prelude.{◌≡◌, [], Some};
ghost use Rattle.smb_link.specs.Memory.{first_reading, next_readings};
ghost use Rattle.smb_link.specs.Once.{told_reading};

use crate::traits::Clock;
use smb_base::U64List;
use std::marker::Model;

/// A clock that reads these numbers in turn. The last one is repeated; with none it reads 0.
#[derive(Debug, Drop)]
pub struct MemClock {
    readings: U64List,
    at: usize,
    read: bool,
}

impl Model for MemClock {
    ghost use Rattle.std.specs.Prelude.{drop, length, true, ◌≡◌, ◌≤◌, ◌+◌, ◌-◌};
    ghost use Rattle.smb_link.specs.Memory.{HeldClock, told_at};

    ghost Value = { HeldClock };

    ghost view = { λ c. record { left = drop c.at c.readings; told = told_at c.at c.read c.readings } };

    ghost invariant = { λ c. (c.at ≤ length c.readings - 1) × (c.read ≡ true → length c.readings ≤ c.at + 1) };
}

impl MemClock {
    /// A clock with these readings, in milliseconds.
    pub fn new(readings: U64List) -> MemClock
        ensures { result ≡ record { left = readings; told = [] } }
    {
        MemClock {
            readings,
            at: 0,
            read: false,
        }
    }
}

impl Clock for MemClock {
    ghost told = { λ c. Some c.told };

    fn now(&mut self) -> u64
        ensures reading { result ≡ first_reading self.old.left }
        ensures next { self.new.left ≡ next_readings self.old.left }
        ensures told { Some self.new.told ≡ told_reading result (Some self.old.told) }
    {
        let left = &self.readings.as_slice()[self.at..];
        match left {
            [] => {
                self.read = true;
                0
            }
            [only] => {
                self.read = true;
                *only
            }
            [first, ..] => {
                self.at += 1;
                *first
            }
        }
    }
}
