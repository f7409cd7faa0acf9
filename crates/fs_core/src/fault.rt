//! Why the core stops.

use smb_base::{Mid, NoMemory};
use smb_field::BodyFault;
use smb_head::HeadFault;
use smb_info::InfoFault;
use smb_mount::MountFault;
use thiserror::Error;

/// What a server sent that no honest one sends.
#[derive(Clone, Copy, Debug, PartialEq, Eq, Error)]
pub enum Protocol {
    /// A message has no header.
    #[error("{0}")]
    Head(HeadFault),
    /// A message has another body than its request and its status say, or is no reply to its request.
    #[error("{0}")]
    Body(BodyFault),
    /// The information in a reply cannot be read.
    #[error("{0}")]
    Info(InfoFault),
    /// The next message of a frame cannot begin where it says.
    #[error("a bad place of the next message")]
    Chain,
    /// A message answers a request that is not in flight.
    #[error("a reply to no request: {0:?}")]
    Stranger(Mid),
    /// A request waits, none is in flight, and no id may be used.
    #[error("a request waits for credits that no reply can grant")]
    NoCredit,
}

/// Why the core takes no further input.
#[derive(Clone, Copy, Debug, PartialEq, Eq, Error)]
pub enum CoreFault {
    /// Memory ran out.
    #[error("out of memory")]
    NoMemory,
    /// The server sent what is wrong.
    #[error("{0}")]
    Protocol(Protocol),
    /// The server refused the mount, for a reason that is neither `Malformed` nor `NoMemory`.
    #[error("{0}")]
    Refused(MountFault),
}

impl From<NoMemory> for CoreFault {
    ghost use Rattle.std.specs.Prelude.{◌≡◌};
    ghost use Rattle.fs_core.specs.declared.fault.CoreFault.TheVariants as fault;

    ghost from_gives = { λ _ e. e ≡ fault.NoMemory };

    fn from(_error: NoMemory) -> CoreFault {
        CoreFault::NoMemory
    }
}
