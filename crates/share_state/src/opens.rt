//! The opens of files and directories.

ghost use Rattle.std.specs.Prelude.{◌≡◌, ◌++◌, ◌∷◌, [], OnOk, OnErr, take, length, ◌-◌, map};
ghost use Rattle.std.specs.Option.{option_copied};
ghost use Rattle.share_state.specs.State.{has_open_of_entry, has_open_of_node};
ghost use Rattle.share_state.specs.Close.{opens_but, open_of, is_open_of, is_key_of, has_open_of_key};
ghost use Rattle.share_state.specs.Cut.{disconnected};
ghost use Rattle.share_state.specs.Listing.{snapshot_in, with_snapshot};

use crate::listing::ShareNameList;
use crate::request::Who;
use smb_base::{Fid, Key, NoMemory};
use std::alloc::Global;
use std::marker::Model;
use std::mem::replace;

/// A file or directory as one client has opened it (MS-FSA 2.1.1.6).
#[derive(Drop)]
pub struct Open {
    /// Its number, which no other open ever has. It is both halves of the file id.
    pub number: u64,
    /// Whose it is.
    pub who: Who,
    /// The number of its node.
    pub node: u64,
    /// The number of the entry by which it was opened, or 0 for the root.
    pub entry: u64,
    /// What it may do (MS-SMB2 2.2.13.1).
    pub access: u32,
    /// What others may do meanwhile: 1 reading, 2 writing, 4 deleting (MS-SMB2 2.2.13).
    pub share: u32,
    /// The key of its lease, if it has one.
    pub key: Option<Key>,
    /// It outlives a lost connection.
    pub durable: bool,
    /// Its client is connected.
    pub connected: bool,
    /// Its entry goes when it is closed.
    pub delete_on_close: bool,
    /// What is left of a listing that was begun.
    pub snapshot: Option<ShareNameList>,
}

/// Opens. A contract sees the list of them.
#[derive(Drop)]
pub struct OpenList {
    held: Vec<Open>,
}

impl Model for OpenList {
    ghost use Rattle.std.specs.Prelude.{List};
    ghost use Rattle.share_state.specs.declared.opens.Open.{Open};

    ghost Value = { List Open };

    ghost view = { λ l. l.held.items };
}

impl OpenList {
    /// No open. It takes no memory.
    pub fn new(alloc: Global) -> OpenList
        ensures { result ≡ [] }
    {
        OpenList {
            held: Vec::new(alloc),
        }
    }

    /// Lends the opens.
    pub fn as_slice(&self) -> &[Open]
        ensures { result.now ≡ self.now }
    {
        self.held.as_slice()
    }

    /// Adds one at the end. For want of memory nothing is changed.
    pub fn push(&mut self, item: Open) -> Result<(), NoMemory>
        ensures ok { OnOk result (self.new ≡ self.old ++ item ∷ []) }
        ensures err { OnErr result (self.new ≡ self.old) }
    {
        self.held.push(item)?;
        Ok(())
    }

    /// Takes the last one off.
    pub fn drop_last(&mut self)
        ensures { self.new ≡ take (length self.old - 1) self.old }
    {
        self.held.pop();
    }

    /// Takes the open with this number off.
    pub fn remove(&mut self, number: u64)
        ensures { self.new ≡ opens_but number self.old }
    {
        remove_from(&mut self.held, number);
    }

    /// Disconnects those of this client.
    pub fn disconnect(&mut self, who: Who)
        ensures { self.new ≡ map (disconnected who) self.old }
    {
        disconnect_in(&mut self.held, who);
    }

    /// Has this listing be what is left of the one that was begun by the open that a file id of this client names, and gives the
    /// listing that was in its place.
    pub fn replace_snapshot(
        &mut self,
        who: Who,
        fid: Fid,
        snapshot: Option<ShareNameList>,
    ) -> Option<ShareNameList>
        ensures before { result ≡ snapshot_in (open_of self.old who fid) }
        ensures after { self.new ≡ with_snapshot who fid snapshot self.old }
    {
        replace_in(&mut self.held, who, fid, snapshot)
    }
}

/// Some open has this entry.
pub fn has_open_of_entry(opens: &[Open], entry: u64) -> bool
    ensures { result ≡ has_open_of_entry opens.now entry }
{
    opens.iter().any(|open| open.entry == entry)
}

/// Some open is of this node.
pub fn has_open_of_node(opens: &[Open], node: u64) -> bool
    ensures { result ≡ has_open_of_node opens.now node }
{
    opens.iter().any(|open| open.node == node)
}

/// This is the key of an open.
pub fn is_key_of(key: Key, own: &Option<Key>) -> bool
    ensures { result ≡ is_key_of key own.now }
{
    match own {
        Some(own) => own.0.as_slice() == key.0.as_slice(),
        None => false,
    }
}

/// Some open of this client has this key.
pub fn has_open_of_key(opens: &[Open], who: Who, key: Key) -> bool
    ensures { result ≡ has_open_of_key opens.now who key }
{
    opens
        .iter()
        .any(|open| open.who.0 == who.0 && is_key_of(key, &open.key))
}

// A file id of this client names this open.
fn is_open_of(who: Who, fid: Fid, one: &Open) -> bool
    ensures { result ≡ is_open_of who fid one.now }
{
    one.number == fid.persistent
        && one.number == fid.volatile
        && one.who.0 == who.0
        && one.connected
}

/// The open that a file id of this client names.
pub fn open_of(opens: &[Open], who: Who, fid: Fid) -> Option<&Open>
    ensures { option_copied result ≡ open_of opens.now who fid }
{
    for one in opens {
        if is_open_of(who, fid, one) {
            return Some(one);
        }
    }
    None
}

// Takes the open with this number off.
fn remove_from(opens: &mut Vec<Open>, number: u64)
    ensures { opens.new.items ≡ opens_but number opens.old.items }
{
    opens.retain(|open| open.number != number);
}

// Disconnects those of this client.
#[tactic(auto, using(std::proofs::lemmas::List::Edits::map_over_more))]
fn disconnect_in(opens: &mut [Open], who: Who)
    ensures { opens.new ≡ map (disconnected who) opens.old }
{
    for open in opens.iter_mut() {
        disconnect_one(open, who);
    }
}

// Disconnects this open where it is of the client.
fn disconnect_one(one: &mut Open, who: Who)
    ensures { one.new ≡ disconnected who one.old }
{
    if one.who.0 == who.0 {
        one.connected = false;
    }
}

// Puts this listing into the open that the file id names, and takes the one out that was there.
fn replace_in(
    opens: &mut [Open],
    who: Who,
    fid: Fid,
    snapshot: Option<ShareNameList>,
) -> Option<ShareNameList>
    ensures before { result ≡ snapshot_in (open_of opens.old who fid) }
    ensures after { opens.new ≡ with_snapshot who fid snapshot opens.old }
{
    for open in opens.iter_mut() {
        if is_open_of(who, fid, open) {
            return replace(&mut open.snapshot, snapshot);
        }
    }
    None
}
