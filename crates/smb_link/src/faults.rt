//! Answers of the outside.

use smb_base::NoMemory;
use thiserror::Error;

/// A read or a write failed. The source or the sink counts it.
#[derive(Clone, Copy, Debug, PartialEq, Eq, Error)]
#[error("the other side failed")]
pub struct Failed;

/// Why a link could not connect or send.
#[derive(Clone, Copy, Debug, PartialEq, Eq, Error)]
pub enum LinkFail {
    /// There is no connection, or it broke. The link counts it.
    #[error("the connection failed")]
    Failed,
    /// Memory ran out.
    #[error("out of memory")]
    NoMemory,
}

/// What a link received.
#[derive(Clone, Copy, Debug, PartialEq, Eq)]
pub enum Got {
    /// So many bytes, at least one, at the front of the buffer.
    Bytes(usize),
    /// Nothing came for a while. The connection stands.
    Quiet,
    /// The connection is gone.
    Closed,
    /// Memory ran out.
    NoMemory,
}
