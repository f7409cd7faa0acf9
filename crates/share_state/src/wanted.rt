//! What a Create wants.

ghost use Rattle.std.specs.Prelude.{◌≡◌};
ghost use Rattle.share_state.specs.State.{has};

use smb_base::Key;

/// What a Create wants beside its path.
#[derive(Clone, Copy)]
pub struct Wanted {
    /// What the open is to do (MS-SMB2 2.2.13.1).
    pub access: u32,
    /// What others may do meanwhile: 1 reading, 2 writing, 4 deleting.
    pub share: u32,
    /// OPEN 1, CREATE 2, OPEN_IF 3, OVERWRITE 4, OVERWRITE_IF 5.
    pub disposition: u32,
    /// DIRECTORY_FILE 1, NON_DIRECTORY_FILE 0x40, DELETE_ON_CLOSE 0x1000.
    pub options: u32,
    /// The attributes of what is made (MS-FSCC 2.6).
    pub attributes: u32,
    /// The lease: its key and its state.
    pub lease: Option<(Key, u8)>,
    /// A durable open.
    pub durable: bool,
}

/// The number has one of these bits.
pub fn has(number: u32, bits: u32) -> bool
    ensures { result ≡ has number bits }
{
    number & bits != 0
}
