//! What a reader of information refuses.

use thiserror::Error;

/// What a reader of information refuses.
#[derive(Clone, Copy, Debug, PartialEq, Eq, Error)]
pub enum InfoFault {
    /// The information has fewer bytes than the class's fields, or a name leaves it.
    #[error("the information is too short")]
    Short,
    /// The offset of the next entry of a directory is not 0 and under 80, or leaves the information.
    #[error("the offset of the next entry is wrong")]
    Next,
}
