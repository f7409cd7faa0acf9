//! What a Create is granted.

use smb_base::Key;

/// What a Create is granted.
#[derive(Clone, Copy)]
pub struct Granting {
    /// The key that its open gets, if it gets one.
    pub key: Option<Key>,
    /// The state that the lease under the key has from then on.
    pub state: u8,
    /// The open is durable.
    pub durable: bool,
}
