//! Requests and replies.

ghost use Rattle.std.specs.Prelude.{◌≡◌};
ghost use Rattle.share_state.specs.Built.{is_built};
ghost use Rattle.share_state.specs.Reply.{of_status};

use crate::listing::ShareNameList;
use smb_base::{Bytes, Fid, Key, Status, Units};

/// A client, by its number. The client that is proved is 0.
#[derive(Clone, Copy, Debug, PartialEq, Eq)]
pub struct Who(pub u32);

/// A request to the share. Offsets, lengths and sizes are in bytes; a path is whole, from the root on, with a backslash between two
/// components, and empty for the root.
#[derive(Debug, Drop)]
pub enum Req {
    /// Opens what a path names, or makes it (MS-SMB2 2.2.13).
    Create {
        /// The path.
        path: Units,
        /// What the open is to do (MS-SMB2 2.2.13.1).
        access: u32,
        /// What others may do meanwhile.
        share: u32,
        /// What to do where the name is there or missing: OPEN 1, CREATE 2, OPEN_IF 3, OVERWRITE 4, OVERWRITE_IF 5.
        disposition: u32,
        /// DIRECTORY_FILE 1, NON_DIRECTORY_FILE 0x40, DELETE_ON_CLOSE 0x1000.
        options: u32,
        /// The attributes of what is made (MS-FSCC 2.6).
        attributes: u32,
        /// The lease that is wanted: its key and its state.
        lease: Option<(Key, u8)>,
        /// A durable open is wanted.
        durable: bool,
    },
    /// Closes an open.
    Close {
        /// Its file id.
        fid: Fid,
    },
    /// Has what was written reach the disk.
    Flush {
        /// The file id of the open.
        fid: Fid,
    },
    /// What is known of the file.
    Query {
        /// The file id of the open.
        fid: Fid,
    },
    /// The room of the share.
    Room {
        /// The file id of an open.
        fid: Fid,
    },
    /// Reads bytes.
    Read {
        /// The file id of the open.
        fid: Fid,
        /// The first byte.
        offset: u64,
        /// How many at most.
        length: u32,
    },
    /// Writes bytes.
    Write {
        /// The file id of the open.
        fid: Fid,
        /// Where the first one goes.
        offset: u64,
        /// The bytes.
        bytes: Bytes,
    },
    /// Locks a range.
    Lock {
        /// The file id of the open.
        fid: Fid,
        /// The first byte.
        offset: u64,
        /// How many bytes.
        length: u64,
        /// No other open may read there; else none may write there.
        exclusive: bool,
    },
    /// Gives a locked range up.
    Unlock {
        /// The file id of the open.
        fid: Fid,
        /// The first byte.
        offset: u64,
        /// How many bytes.
        length: u64,
    },
    /// The next names of a directory.
    List {
        /// The file id of the open.
        fid: Fid,
        /// From the beginning.
        restart: bool,
        /// How many bytes the reply may have.
        length: u32,
    },
    /// Sets the attributes; 0 changes nothing.
    SetBasic {
        /// The file id of the open.
        fid: Fid,
        /// The attributes (MS-FSCC 2.6).
        attributes: u32,
    },
    /// Sets the size of a file.
    SetEnd {
        /// The file id of the open.
        fid: Fid,
        /// The size.
        size: u64,
    },
    /// Has the entry of an open go once it is closed, or stay.
    SetPending {
        /// The file id of the open.
        fid: Fid,
        /// It is to go.
        on: bool,
    },
    /// Gives the entry of an open another name and directory.
    Rename {
        /// The file id of the open.
        fid: Fid,
        /// A file that has the new path already is replaced.
        replace: bool,
        /// The new path.
        path: Units,
    },
    /// Gives a file one more entry.
    LinkTo {
        /// The file id of the open.
        fid: Fid,
        /// A file that has the new path already is replaced.
        replace: bool,
        /// The new path.
        path: Units,
    },
    /// Acknowledges the break of a lease (MS-SMB2 2.2.24.2).
    Ack {
        /// The key of the lease.
        key: Key,
        /// The state that it has from now on.
        state: u8,
    },
    /// Takes a durable open up again after a lost connection.
    Reclaim {
        /// The file id of the open.
        fid: Fid,
        /// The key of its lease.
        key: Key,
    },
}

impl Req {
    /// Whether the share takes this request: any but a Create that wants a lease or a durable open, the acknowledgement of a break, and
    /// the reclaim of a durable open.
    pub fn is_built(&self) -> bool
        ensures { result ≡ is_built self.now }
    {
        match self {
            Req::Create { lease, durable, .. } => lease.is_none() && !*durable,
            Req::Ack { .. } | Req::Reclaim { .. } => false,
            _ => true,
        }
    }
}

/// What a reply holds beside its status.
#[derive(Debug, Drop)]
pub enum RepBody {
    /// Nothing.
    None,
    /// What a Create gave.
    Opened {
        /// The file id of the new open.
        fid: Fid,
        /// What was done: opened 1, created 2, overwritten 3 (MS-SMB2 2.2.14).
        action: u32,
        /// The size in bytes.
        size: u64,
        /// The attributes: 1 read-only file, 0x10 directory, 0x11 read-only directory, else 0x80.
        attributes: u32,
        /// The lease state that was granted.
        lease: u8,
        /// The open is durable.
        durable: bool,
    },
    /// The bytes that were read.
    Bytes(Bytes),
    /// How many bytes were written.
    Count(u32),
    /// What is known of a file.
    Info {
        /// It is a directory.
        dir: bool,
        /// The size in bytes; 0 for a directory.
        size: u64,
        /// It is read-only.
        read_only: bool,
        /// How many entries stand for it; 1 for the root.
        links: u32,
        /// The entry of the open goes once no open has it any more.
        pending: bool,
        /// The number of the node.
        number: u64,
    },
    /// Names of a directory.
    Names(ShareNameList),
    /// The room of the share in bytes.
    Room {
        /// The room as a whole.
        total: u64,
        /// What of it is free.
        free: u64,
    },
}

/// A reply of the share.
#[derive(Debug, Drop)]
pub struct Rep {
    /// 0 where it was done, else why not (MS-ERREF 2.3.1).
    pub status: Status,
    /// What it holds beside; nothing where it was not done.
    pub body: RepBody,
}

/// A reply of this status alone.
pub fn of_status(status: Status) -> Rep
    ensures { result ≡ of_status status.0 }
{
    Rep {
        status,
        body: RepBody::None,
    }
}
