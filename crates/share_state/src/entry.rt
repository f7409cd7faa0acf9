//! The names in directories.

ghost use Rattle.std.specs.Prelude.{◌≡◌, ◌++◌, ◌∷◌, [], OnOk, OnErr, take, length, ◌-◌, ◌==◌, map};
ghost use Rattle.std.specs.List.{position};
ghost use Rattle.share_state.specs.State.{marked, has_entries, is_pending, is_going, is_named};
ghost use Rattle.share_state.specs.Query.{links_of};
ghost use Rattle.share_state.specs.Close.{kept_entries};
ghost use Rattle.share_state.specs.Marks.{with_pending};
ghost use Rattle.share_state.specs.NewNames.{with_name, without_replaced};

use crate::opens::{Open, has_open_of_entry};
use smb_base::{NoMemory, Units};
use std::alloc::Global;
use std::marker::Model;

/// A name in a directory, and what it stands for: MS-FSA's link (MS-FSA 2.1.1.5).
#[derive(Drop)]
pub struct Entry {
    /// Its number, which no other entry ever has and which it keeps when it is renamed.
    pub number: u64,
    /// The number of the directory that has it.
    pub directory: u64,
    /// Its name, in units of UTF-16.
    pub name: Units,
    /// The number of the node that it stands for.
    pub node: u64,
    /// It goes once no open has it any more (MS-FSA calls it a deleted link).
    pub pending: bool,
}

/// Entries. A contract sees the list of them.
#[derive(Drop)]
pub struct EntryList {
    held: Vec<Entry>,
}

impl Model for EntryList {
    ghost use Rattle.std.specs.Prelude.{List};
    ghost use Rattle.share_state.specs.declared.entry.Entry.{Entry};

    ghost Value = { List Entry };

    ghost view = { λ l. l.held.items };
}

impl EntryList {
    /// No entry. It takes no memory.
    pub fn new(alloc: Global) -> EntryList
        ensures { result ≡ [] }
    {
        EntryList {
            held: Vec::new(alloc),
        }
    }

    /// Lends the entries.
    pub fn as_slice(&self) -> &[Entry]
        ensures { result.now ≡ self.now }
    {
        self.held.as_slice()
    }

    /// Adds one at the end. For want of memory nothing is changed.
    pub fn push(&mut self, item: Entry) -> Result<(), NoMemory>
        ensures ok { OnOk result (self.new ≡ self.old ++ item ∷ []) }
        ensures err { OnErr result (self.new ≡ self.old) }
    {
        self.held.push(item)?;
        Ok(())
    }

    /// Takes the last one off.
    pub fn drop_last(&mut self)
        ensures { self.new ≡ take (length self.old - 1) self.old }
    {
        self.held.pop();
    }

    /// Has the entry with this number go once no open has it any more.
    pub fn mark(&mut self, number: u64)
        ensures { self.new ≡ map (marked number) self.old }
    {
        mark_in(&mut self.held, number);
    }

    /// Has the entry with this number go once no open has it any more, or stay.
    pub fn set_pending(&mut self, number: u64, on: bool)
        ensures { self.new ≡ map (with_pending number on) self.old }
    {
        set_pending_in(&mut self.held, number, on);
    }

    /// Gives the first entry with this number another directory and name.
    pub fn rename(&mut self, number: u64, directory: u64, name: Units)
        ensures { self.new ≡ with_name number directory name self.old }
    {
        rename_in(&mut self.held, number, directory, name);
    }

    /// Takes the entry `replaced` off, since the entry `number` gets its name; nothing where they are one entry.
    pub fn remove_replaced(&mut self, number: u64, replaced: u64)
        ensures { self.new ≡ without_replaced number replaced self.old }
    {
        remove_from(&mut self.held, number, replaced);
    }

    /// Keeps the entries that are not to go or that some open has.
    pub fn keep(&mut self, opens: &[Open])
        ensures { self.new ≡ kept_entries opens.now self.old }
    {
        keep_held(&mut self.held, opens);
    }
}

/// The directory has entries.
pub fn has_entries(entries: &[Entry], directory: u64) -> bool
    ensures { result ≡ has_entries entries.now directory }
{
    entries.iter().any(|entry| entry.directory == directory)
}

/// The entry with this number is to go.
pub fn is_pending(entries: &[Entry], number: u64) -> bool
    ensures { result ≡ is_pending entries.now number }
{
    entries
        .iter()
        .any(|entry| entry.number == number && entry.pending)
}

/// An entry of this node is to go.
pub fn is_going(entries: &[Entry], node: u64) -> bool
    ensures { result ≡ is_going entries.now node }
{
    entries
        .iter()
        .any(|entry| entry.node == node && entry.pending)
}

/// Some entry stands for this node.
pub fn is_named(entries: &[Entry], node: u64) -> bool
    ensures { result ≡ is_named entries.now node }
{
    entries.iter().any(|entry| entry.node == node)
}

/// How many entries stand for this node.
pub fn links_of(entries: &[Entry], node: u64) -> u32
    ensures { result ≡ links_of entries.now node }
{
    if node == 1 {
        return 1;
    }
    let count = entries.iter().filter(|entry| entry.node == node).count();
    count.min(0xFFFF_FFFF) as u32
}

// Keeps the entries that are not to go or that some open has.
fn keep_held(entries: &mut Vec<Entry>, opens: &[Open])
    ensures { entries.new.items ≡ kept_entries opens.now entries.old.items }
{
    entries.retain(|entry| !entry.pending || has_open_of_entry(opens, entry.number));
}

// Has the entry with this number go once no open has it any more.
#[tactic(auto, using(std::proofs::lemmas::List::Edits::map_over_more))]
fn mark_in(entries: &mut [Entry], number: u64)
    ensures { entries.new ≡ map (marked number) entries.old }
{
    for entry in entries.iter_mut() {
        mark_one(entry, number);
    }
}

// Has this entry go where it has the number.
fn mark_one(entry: &mut Entry, number: u64)
    ensures { entry.new ≡ marked number entry.old }
{
    if entry.number == number {
        entry.pending = true;
    }
}

// Has the entry with this number go once no open has it any more, or stay.
#[tactic(auto, using(std::proofs::lemmas::List::Edits::map_over_more))]
fn set_pending_in(entries: &mut [Entry], number: u64, on: bool)
    ensures { entries.new ≡ map (with_pending number on) entries.old }
{
    for entry in entries.iter_mut() {
        set_pending_one(entry, number, on);
    }
}

// Has this entry go or stay where it has the number.
fn set_pending_one(entry: &mut Entry, number: u64, on: bool)
    ensures { entry.new ≡ with_pending number on entry.old }
{
    if entry.number == number {
        entry.pending = on;
    }
}

// Where the first entry with this number stands.
fn position_of(entries: &[Entry], number: u64) -> Option<usize>
    ensures { result ≡ position (λ e. e.number == number) entries.now }
{
    entries.iter().position(|entry| entry.number == number)
}

// Gives the first entry with this number another directory and name.
#[tactic(auto, using(crate::proofs::Renaming::edited_nowhere))]
fn rename_in(entries: &mut [Entry], number: u64, directory: u64, name: Units)
    ensures { entries.new ≡ with_name number directory name entries.old }
{
    if let Some(at) = position_of(entries, number) {
        rename_one(&mut entries[at], directory, name);
    }
}

// Gives an entry another directory and name.
fn rename_one(entry: &mut Entry, directory: u64, name: Units)
    ensures { entry.new ≡ record entry.old { directory = directory; name = name } }
{
    entry.directory = directory;
    entry.name = name;
}

// Takes the entry off that is replaced by the one with this number.
fn remove_from(entries: &mut Vec<Entry>, number: u64, replaced: u64)
    ensures { entries.new.items ≡ without_replaced number replaced entries.old.items }
{
    entries.retain(|entry| entry.number == number || entry.number != replaced);
}
