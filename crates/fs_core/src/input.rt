//! What comes to the core.

use fs_types::Call;
use smb_base::Bytes;

/// What comes to the core: from the script, from the connection, or from the clock.
#[derive(Debug, Drop)]
pub enum Input {
    /// The line with this number begins its call in this lane.
    Begin(u64, u8, Call),
    /// A whole frame came, without the four bytes in front of it.
    Frame(Bytes),
    /// The connection is lost.
    Cut,
    /// A connection is made.
    Joined,
    /// The clock reads so many milliseconds.
    Now(u64),
    /// No further call begins; what is under way is still finished.
    End,
}
