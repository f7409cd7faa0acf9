//! Why a share is not mounted.

use smb_base::{NoMemory, Status};
use smb_field::BodyFault;
use thiserror::Error;

/// Why a share is not mounted.
#[derive(Clone, Copy, Debug, PartialEq, Eq, Error)]
pub enum MountFault {
    /// The server chose another dialect than SMB 2.1; 0 where it refused to negotiate.
    #[error("the server chose dialect {0}")]
    Dialect(u16),
    /// The server wants each message signed.
    #[error("the server requires signing")]
    SigningRequired,
    /// The server refused the session with this status.
    #[error("the session was refused with status {0:?}")]
    Session(Status),
    /// The session is neither a guest's nor an anonymous one, so that its messages would have to be signed.
    #[error("the session is not a guest's")]
    NotGuest,
    /// The server refused the share with this status.
    #[error("the share was refused with status {0:?}")]
    Tree(Status),
    /// The share is of this type, and no disk.
    #[error("the share has type {0}")]
    NotDisk(u8),
    /// The body of a reply cannot be read.
    #[error("a malformed reply: {0}")]
    Malformed(BodyFault),
    /// Memory ran out. No reply is answered so; it is what a request that could not be made answers.
    #[error("out of memory")]
    NoMemory,
}

impl From<NoMemory> for MountFault {
    ghost use Rattle.std.specs.Prelude.{◌≡◌};
    ghost use Rattle.smb_mount.specs.declared.fault.MountFault.TheVariants as fault;

    ghost from_gives = { λ _ e. e ≡ fault.NoMemory };

    fn from(_error: NoMemory) -> MountFault {
        MountFault::NoMemory
    }
}
