//! The names that a listing gives, and lists of names.

ghost use Rattle.std.specs.Prelude.{◌≡◌, ◌≤◌, ◌++◌, ◌∷◌, [], IfOk, OnOk, OnErr, take, drop, length};

use smb_base::{NoMemory, Units};
use std::alloc::Global;
use std::marker::Model;
use std::mem::replace;

/// A name as a listing gives it (MS-FSCC 2.4.18).
#[derive(Debug, Drop)]
pub struct ShareName {
    /// The name, in units of UTF-16.
    pub name: Units,
    /// It stands for a directory.
    pub dir: bool,
    /// The size of the file in bytes; 0 for a directory.
    pub size: u64,
    /// It is read-only.
    pub read_only: bool,
    /// The number of the node.
    pub number: u64,
}

/// Names of a listing. A contract sees the list of them.
#[derive(Debug, Drop)]
pub struct ShareNameList {
    held: Vec<ShareName>,
}

impl Model for ShareNameList {
    ghost use Rattle.std.specs.Prelude.{List};
    ghost use Rattle.share_state.specs.declared.listing.ShareName.{ShareName};

    ghost Value = { List ShareName };

    ghost view = { λ l. l.held.items };
}

impl ShareNameList {
    /// No name. It takes no memory.
    pub fn new(alloc: Global) -> ShareNameList
        ensures { result ≡ [] }
    {
        ShareNameList {
            held: Vec::new(alloc),
        }
    }

    /// These names as they are, without a copy.
    pub fn of_vec(held: Vec<ShareName>) -> ShareNameList
        ensures { result ≡ held.items }
    {
        ShareNameList { held }
    }

    /// Lends the names.
    pub fn as_slice(&self) -> &[ShareName]
        ensures { result.now ≡ self.now }
    {
        self.held.as_slice()
    }

    /// Adds one at the end. For want of memory nothing is changed.
    pub fn push(&mut self, item: ShareName) -> Result<(), NoMemory>
        ensures ok { OnOk result (self.new ≡ self.old ++ item ∷ []) }
        ensures err { OnErr result (self.new ≡ self.old) }
    {
        self.held.push(item)?;
        Ok(())
    }

    /// Takes so many names off the front, without a copy of any. For want of memory nothing is changed.
    pub fn take_front(&mut self, count: usize) -> Result<ShareNameList, NoMemory>
        requires { count ≤ length self.old }
        ensures taken { IfOk result (λ l. l ≡ take count self.old) }
        ensures left { OnOk result (self.new ≡ drop count self.old) }
        ensures err { OnErr result (self.new ≡ self.old) }
    {
        let left = self.held.split_off(count)?;
        Ok(ShareNameList {
            held: replace(&mut self.held, left),
        })
    }
}

/// Names without what they stand for. A contract sees the list of them, each as its units.
#[derive(Debug, Drop)]
pub struct UnitsList {
    held: Vec<Units>,
}

impl Model for UnitsList {
    ghost use Rattle.std.specs.Prelude.{List, ℕ};

    ghost Value = { List (List ℕ) };

    ghost view = { λ l. l.held.items };
}

impl UnitsList {
    /// No name. It takes no memory.
    pub fn new(alloc: Global) -> UnitsList
        ensures { result ≡ [] }
    {
        UnitsList {
            held: Vec::new(alloc),
        }
    }

    /// Lends the names.
    pub fn as_slice(&self) -> &[Units]
        ensures { result.now ≡ self.now }
    {
        self.held.as_slice()
    }

    /// Adds one at the end. For want of memory nothing is changed.
    pub fn push(&mut self, item: Units) -> Result<(), NoMemory>
        ensures ok { OnOk result (self.new ≡ self.old ++ item ∷ []) }
        ensures err { OnErr result (self.new ≡ self.old) }
    {
        self.held.push(item)?;
        Ok(())
    }
}
