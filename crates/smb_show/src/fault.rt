//! What is wrong with a line.

use thiserror::Error;

/// What is wrong with a line.
#[derive(Clone, Copy, Debug, PartialEq, Eq, Error)]
pub enum LineFault {
    /// It is not a kind, a space, and bytes.
    #[error("not a kind and bytes in hex")]
    Words,
    /// Its second word is no bytes in hex.
    #[error("no bytes in hex")]
    Hex,
    /// Its first word is no kind.
    #[error("no such kind")]
    Kind,
    /// A wire name has an odd number of bytes.
    #[error("half a unit of UTF-16")]
    Unit,
    /// A name or a path is no text.
    #[error("no text in UTF-8")]
    Text,
    /// Memory ran out.
    #[error("out of memory")]
    NoMemory,
}

impl From<smb_base::NoMemory> for LineFault {
    fn from(_error: smb_base::NoMemory) -> LineFault {
        LineFault::NoMemory
    }
}
