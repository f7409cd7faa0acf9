//! The answers of calls.

ghost use Rattle.std.specs.Prelude.{◌≡◌, IfOk};

use crate::call::Fd;
use crate::names::{Kind, NameList};
use smb_base::{Bytes, Errno, NoMemory, Status, Text};
use std::alloc::Global;

/// What `stat`, `lstat` and `fstat` say of a file.
#[derive(Clone, Copy, Debug, PartialEq, Eq)]
pub struct StatOf {
    /// What it is.
    pub kind: Kind,
    /// Its size in bytes; 0 for a directory, the length of the target for a link.
    pub size: u64,
    /// The nine bits for owner, group and others.
    pub mode: u16,
    /// How many names it has.
    pub links: u32,
    /// The number by which the share tells it from every other file.
    pub number: u64,
}

/// The names in a directory.
#[derive(Debug, Drop)]
pub struct Listing {
    /// The names that have a path, sorted by their bytes.
    pub names: NameList,
    /// How many names of the directory have none, since no text stands for their units.
    pub bad: u32,
}

/// The answer of a call.
#[derive(Debug, Drop)]
pub enum Answer {
    /// It was done, and there is nothing more to say.
    Done,
    /// The descriptor that it gave.
    Descriptor(Fd),
    /// How many bytes were written.
    Count(u32),
    /// The bytes that were read.
    Bytes(Bytes),
    /// The shared offset now, in bytes.
    At(u64),
    /// What is known of a file.
    Stat(StatOf),
    /// The target of a link.
    Target(Text),
    /// The names in a directory.
    Names(Listing),
    /// The share's room as a whole, then what of it is free, in bytes.
    Room(u128, u128),
    /// It failed with this error number; where that is EREMOTEIO for a status of the server that has no number of its own, with
    /// this status (MS-ERREF 2.3.1).
    Err(Errno, Option<Status>),
}

impl Listing {
    /// A copy of this listing. It fails only for want of memory.
    pub fn copied(&self, alloc: Global) -> Result<Listing, NoMemory>
        ensures { IfOk result (λ l. l ≡ self.now) }
    {
        Ok(Listing {
            names: NameList::of(alloc, self.names.as_slice())?,
            bad: self.bad,
        })
    }
}

impl Answer {
    /// A copy of this answer. It fails only for want of memory.
    pub fn copied(&self, alloc: Global) -> Result<Answer, NoMemory>
        ensures { IfOk result (λ a. a ≡ self.now) }
    {
        Ok(match self {
            Answer::Done => Answer::Done,
            Answer::Descriptor(fd) => Answer::Descriptor(*fd),
            Answer::Count(count) => Answer::Count(*count),
            Answer::Bytes(bytes) => Answer::Bytes(Bytes::of(alloc, bytes.as_slice())?),
            Answer::At(offset) => Answer::At(*offset),
            Answer::Stat(stat) => Answer::Stat(*stat),
            Answer::Target(target) => Answer::Target(Text::of(alloc, target.as_str())?),
            Answer::Names(listing) => Answer::Names(listing.copied(alloc)?),
            Answer::Room(total, free) => Answer::Room(*total, *free),
            Answer::Err(errno, status) => Answer::Err(*errno, *status),
        })
    }
}
