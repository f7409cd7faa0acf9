//! The fields of a body, and what a reader refuses.

use thiserror::Error;

/// A field of a body's fixed part, in the order of the tables of MS-SMB2 2.2. Every number is little-endian.
#[derive(Clone, Copy)]
pub enum Field {
    /// A number of 1 byte.
    U8(u8),
    /// A number of 2 bytes.
    U16(u16),
    /// A number of 4 bytes.
    U32(u32),
    /// A number of 8 bytes.
    U64(u64),
    /// Sixteen bytes as they are, as a guid or a lease key.
    Block([u8; 16]),
    /// Four bytes as they are, as the name of a create context.
    Name([u8; 4]),
    /// A number of 1 byte that is written and that a reader passes over.
    Any8(u8),
    /// A number of 2 bytes that is written and that a reader passes over.
    Any16(u16),
    /// A number of 4 bytes that is written and that a reader passes over.
    Any32(u32),
    /// A number of 8 bytes that is written and that a reader passes over.
    Any64(u64),
    /// The offset of the variable part in 1 byte. It is written also where the part is empty.
    Place8,
    /// The offset of the variable part in 2 bytes, 0 where it is empty.
    Offset16,
    /// The offset of the variable part in 4 bytes, 0 where it is empty.
    Offset32,
    /// The offset of a second variable part in 4 bytes, 0 where it is empty.
    Second32,
    /// No byte: the variable part follows the fixed part, and no field has its offset.
    Follows,
}

/// The offsets that a body names, counted from the message's header.
#[derive(Clone, Copy)]
pub struct Places {
    /// The end of the fixed part.
    pub behind: u8,
    /// Where the variable part stands, 0 where it is empty.
    pub first: u16,
    /// Where the second variable part stands, 0 where it is empty.
    pub second: u32,
}

/// What a reader of a body refuses, in the order in which it looks.
#[derive(Clone, Copy, Debug, PartialEq, Eq, Error)]
pub enum BodyFault {
    /// The message has fewer bytes than the header and the fixed part.
    #[error("the message is too short")]
    Short,
    /// The structure size is another.
    #[error("the structure size is another")]
    Size,
    /// A field has a value that it may not have.
    #[error("a field has a value that it may not have")]
    Value,
    /// A variable part that is not empty does not lie in the message behind the fixed part.
    #[error("a part does not lie in the message behind the fixed part")]
    Offset,
}
