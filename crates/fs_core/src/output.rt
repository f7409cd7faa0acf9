//! What the core wants done.

use fs_types::Answer;
use smb_base::Bytes;
use smb_link::Mark;

/// What is to be carried out, in the order in which it comes.
#[derive(Debug, Drop)]
pub enum Output {
    /// A frame is sent, with the four bytes in front of it.
    Send(Bytes),
    /// The program tells this of itself: a beginning, the clock, the end, or what the next frame is for.
    Marked(Mark),
    /// A connection is made, in place of one that is lost or was never there.
    Reconnect,
    /// The call of this line has this answer, which is told and printed.
    Answer(u64, Answer),
    /// The share is left, and nothing more is wanted.
    Left,
}
