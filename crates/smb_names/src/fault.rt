//! Why a name or a wire name is refused.

ghost use Rattle.std.specs.Prelude.{◌≡◌};
ghost use Rattle.smb_names.specs.declared.fault.NameFault.TheVariants.{NoMemory};

use std::alloc::{AllocError, AllocFailed};
use thiserror::Error;

/// Why a name has no wire name, or some units are no wire name.
#[derive(Clone, Copy, Debug, PartialEq, Eq, Error)]
pub enum NameFault {
    /// There is no character.
    #[error("the name is empty")]
    Empty,
    /// There are more than 255 units of UTF-16.
    #[error("the name has more than 255 units of UTF-16")]
    TooLong,
    /// A character stands there that has no form on the wire; or, of units, no name has them as its wire name.
    #[error("the name has a reserved character")]
    Reserved,
    /// The units are no well-formed UTF-16.
    #[error("a surrogate stands alone")]
    Surrogate,
    /// Memory ran out.
    #[error("out of memory")]
    NoMemory,
}

impl From<AllocError> for NameFault {
    ghost from_gives = { λ _ e. e ≡ NoMemory };

    fn from(_error: AllocError) -> NameFault {
        NameFault::NoMemory
    }
}

impl From<smb_base::NoMemory> for NameFault {
    ghost from_gives = { λ _ e. e ≡ NoMemory };

    fn from(_error: smb_base::NoMemory) -> NameFault {
        NameFault::NoMemory
    }
}
