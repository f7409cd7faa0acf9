//! What the share holds, what may be asked of it, and what it answers: the types, their lists, and the definitions of the machine.
#![tactic(auto)]

mod connection;
mod entry;
mod granting;
mod lease;
mod listing;
mod lock;
mod node;
mod opens;
mod place;
mod request;
mod share;
mod wanted;

pub use connection::{Grant, GrantList, LastCreate, Owed, OwedList, Sent, SentList};
pub use entry::{Entry, EntryList, has_entries, is_going, is_named, is_pending, links_of};
pub use granting::Granting;
pub use lease::{
    BreakNeeds, Lease, LeaseList, bits, holds, is_lease_of, is_taken, lease_of, lowered,
};
pub use listing::{ShareName, ShareNameList, UnitsList};
pub use lock::{Lock, LockList, has_lock};
pub use node::{Node, NodeList, bytes_of, free_room, is_directory, is_read_only, size_of};
pub use opens::{
    Open, OpenList, has_open_of_entry, has_open_of_key, has_open_of_node, is_key_of, open_of,
};
pub use place::{Found, Place};
pub use request::{Rep, RepBody, Req, Who, of_status};
pub use share::Share;
pub use wanted::{Wanted, has};
