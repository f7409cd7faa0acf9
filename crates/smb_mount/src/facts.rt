//! What a mount knows of its server and its share.

use smb_le::ServerCaps;

/// What the server said of itself in its NEGOTIATE reply (MS-SMB2 2.2.4).
#[derive(Clone, Copy, Debug)]
pub struct Server {
    /// What it can do.
    pub caps: ServerCaps,
    /// The greatest payload of a query or a change of information, in bytes.
    pub max_transact: u32,
    /// The greatest read, in bytes.
    pub max_read: u32,
    /// The greatest write, in bytes.
    pub max_write: u32,
    /// Its own id.
    pub guid: [u8; 16],
}

/// What is known of a mounted share.
#[derive(Clone, Copy, Debug, PartialEq, Eq)]
pub struct Facts {
    /// The session that requests are sent in.
    pub session: u64,
    /// The tree that requests are for.
    pub tree: u32,
    /// What the server can do.
    pub caps: ServerCaps,
    /// The greatest payload of a query or a change of information, in bytes.
    pub max_transact: u32,
    /// The greatest read, in bytes.
    pub max_read: u32,
    /// The greatest write, in bytes.
    pub max_write: u32,
    /// The server's own id.
    pub guid: [u8; 16],
}
