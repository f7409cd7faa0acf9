//! What the share holds.

ghost use Rattle.std.specs.Prelude.{◌≡◌, IfOk};
ghost use Rattle.share_state.specs.State.{fresh_share};

use crate::connection::{GrantList, OwedList, SentList};
use crate::entry::EntryList;
use crate::lease::LeaseList;
use crate::lock::LockList;
use crate::node::{Node, NodeList};
use crate::opens::OpenList;
use smb_base::{Bytes, NoMemory};
use std::alloc::Global;

/// What the share holds, and with it the connection to the client that is proved.
#[derive(Drop)]
pub struct Share {
    /// Files and directories.
    pub nodes: NodeList,
    /// The names in directories.
    pub entries: EntryList,
    /// The opens of all clients.
    pub opens: OpenList,
    /// The locked ranges.
    pub locks: LockList,
    /// The leases.
    pub leases: LeaseList,
    /// How many bytes all files may have together.
    pub room: u64,
    /// `a` to `z` in names are as `A` to `Z`.
    pub fold: bool,
    /// How many nodes were made so far; the next one has the number after it.
    pub nodes_made: u64,
    /// How many entries were made so far.
    pub entries_made: u64,
    /// How many opens were made so far.
    pub opens_made: u64,
    /// A connection to the client stands.
    pub connected: bool,
    /// What the client sent on this connection and was not taken yet.
    pub sent: SentList,
    /// What the client is owed on this connection and did not get yet.
    pub owed: OwedList,
    /// The bytes that the client got of a frame that is not whole yet.
    pub held: Bytes,
    /// What the share is going to choose at the next requests that it takes, as their replies will tell.
    pub grants: GrantList,
}

impl Share {
    /// A share that has the root alone, node 1, and no open. The room is in bytes; with `fold`, names are equal that differ in `a` to
    /// `z` against `A` to `Z` alone. It fails only for want of memory.
    pub fn new(alloc: Global, room: u64, fold: bool) -> Result<Share, NoMemory>
        ensures { IfOk result (λ s. s ≡ fresh_share room fold) }
    {
        let mut nodes = NodeList::new(alloc);
        nodes.push(Node {
            number: 1,
            dir: true,
            bytes: Bytes::new(alloc),
            read_only: false,
        })?;
        Ok(Share {
            nodes,
            entries: EntryList::new(alloc),
            opens: OpenList::new(alloc),
            locks: LockList::new(alloc),
            leases: LeaseList::new(alloc),
            room,
            fold,
            nodes_made: 1,
            entries_made: 0,
            opens_made: 0,
            connected: false,
            sent: SentList::new(alloc),
            owed: OwedList::new(alloc),
            held: Bytes::new(alloc),
            grants: GrantList::new(alloc),
        })
    }
}
