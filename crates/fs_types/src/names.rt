//! The names of a directory, each with what it names.

ghost use Rattle.std.specs.Prelude.{◌≡◌, ◌++◌, ◌∷◌, [], IfOk, OnOk, OnErr};

use smb_base::{NoMemory, Text};
use std::alloc::Global;
use std::marker::Model;

/// What a name stands for.
#[derive(Clone, Copy, Debug, PartialEq, Eq)]
pub enum Kind {
    /// A file.
    File,
    /// A directory.
    Dir,
    /// A symbolic link, which the share holds as a file of a form of its own.
    Link,
}

/// Names, each with its kind. A contract sees the list of these pairs, each name as its bytes.
#[derive(Debug, Drop)]
pub struct NameList {
    held: Vec<(Text, Kind)>,
}

impl Model for NameList {
    ghost use Rattle.std.specs.Prelude.{List, ℕ};
    ghost use Rattle.fs_types.specs.declared.names.Kind.{Kind};

    ghost Value = { List (List ℕ × Kind) };

    ghost view = { λ l. l.held.items };
}

impl NameList {
    /// No name. It takes no memory.
    pub fn new(alloc: Global) -> NameList
        ensures { result ≡ [] }
    {
        NameList {
            held: Vec::new(alloc),
        }
    }

    /// A copy of these names. It fails only for want of memory.
    pub fn of(alloc: Global, names: &[(Text, Kind)]) -> Result<NameList, NoMemory>
        ensures { IfOk result (λ l. l ≡ names.now) }
    {
        let mut held = Vec::with_capacity(alloc, names.len())?;
        for pair in names {
            held.push((Text::of(alloc, pair.0.as_str())?, pair.1))?;
        }
        Ok(NameList { held })
    }

    /// Lends the names.
    pub fn as_slice(&self) -> &[(Text, Kind)]
        ensures { result.now ≡ self.now }
    {
        self.held.as_slice()
    }

    /// Adds a name with its kind at the end. For want of memory nothing is changed.
    pub fn push(&mut self, name: Text, kind: Kind) -> Result<(), NoMemory>
        ensures ok { OnOk result (self.new ≡ self.old ++ (name, kind) ∷ []) }
        ensures err { OnErr result (self.new ≡ self.old) }
    {
        self.held.push((name, kind))?;
        Ok(())
    }
}
