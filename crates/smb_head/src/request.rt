//! A request that is to be sent.

use smb_base::Bytes;

/// A request without what its connection adds: the message id, the credits that are asked for and the place in a chain.
#[derive(Debug, Drop)]
pub struct Request {
    /// The command (MS-SMB2 2.2.1.2).
    pub command: u16,
    /// How many credits it costs; 0 where the dialect or the server knows no larger charges.
    pub charge: u16,
    /// Whether it belongs to the request before it in its chain (SMB2_FLAGS_RELATED_OPERATIONS).
    pub related: bool,
    /// The tree that it is for.
    pub tree: u32,
    /// The session that it is sent in.
    pub session: u64,
    /// The body, from its StructureSize on.
    pub body: Bytes,
}
