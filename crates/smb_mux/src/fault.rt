//! Why requests are not sent, and why a frame is not taken.

use smb_base::{Mid, NoMemory};
use smb_field::BodyFault;
use smb_head::HeadFault;
use thiserror::Error;

/// Why requests are not sent.
#[derive(Clone, Copy, Debug, PartialEq, Eq, Error)]
pub enum SubmitFault {
    /// They cost more ids than may be used.
    #[error("fewer message ids may be used than the requests cost")]
    Starved,
    /// Memory ran out.
    #[error("out of memory")]
    NoMemory,
}

impl From<NoMemory> for SubmitFault {
    ghost use Rattle.std.specs.Prelude.{◌≡◌};
    ghost use Rattle.smb_mux.specs.declared.fault.SubmitFault.TheVariants as fault;

    ghost from_gives = { λ _ e. e ≡ fault.NoMemory };

    fn from(_error: NoMemory) -> SubmitFault {
        SubmitFault::NoMemory
    }
}

/// What is wrong with a message.
#[derive(Clone, Copy, Debug, PartialEq, Eq, Error)]
pub enum Malformed {
    /// It has no header.
    #[error("{0}")]
    Head(HeadFault),
    /// It has another body than its status and its request's command say; or it is no reply to its request, or no notice where it
    /// answers none (`Value`).
    #[error("{0}")]
    Body(BodyFault),
    /// The next message cannot begin where it says.
    #[error("a bad place of the next message")]
    Chain,
}

/// Why a frame is not taken.
#[derive(Clone, Copy, Debug, PartialEq, Eq, Error)]
pub enum TakeFault {
    /// A message is wrong.
    #[error("a malformed message: {0}")]
    Malformed(Malformed),
    /// A message answers a request that is not in flight.
    #[error("a reply to no request: {0:?}")]
    Stranger(Mid),
    /// Memory ran out.
    #[error("out of memory")]
    NoMemory,
}

impl From<NoMemory> for TakeFault {
    ghost use Rattle.std.specs.Prelude.{◌≡◌};
    ghost use Rattle.smb_mux.specs.declared.fault.TakeFault.TheVariants as fault;

    ghost from_gives = { λ _ e. e ≡ fault.NoMemory };

    fn from(_error: NoMemory) -> TakeFault {
        TakeFault::NoMemory
    }
}
