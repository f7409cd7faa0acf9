//! Marks in the story of a link: what the program says of itself between the events of the connection.

ghost use Rattle.std.specs.Prelude.{◌≡◌, IfOk};

use fs_types::{Answer, Call};
use smb_base::{Mid, NoMemory};
use std::alloc::Global;

/// What the program tells of itself.
#[derive(Debug, Drop)]
pub enum Mark {
    /// The script's line with this number starts, in this lane, with this call.
    Begin(u64, u8, Call),
    /// The next frame that is sent holds so many requests of the call with this number, the first of them under this message id.
    For(u64, Mid, u16),
    /// The call with this number has this answer.
    Answer(u64, Answer),
    /// The clock reads so many milliseconds.
    Now(u64),
    /// The script is at its end; what is under way is still finished.
    End,
}

impl Mark {
    /// A copy of this mark. It fails only for want of memory.
    pub fn copied(&self, alloc: Global) -> Result<Mark, NoMemory>
        ensures { IfOk result (λ m. m ≡ self.now) }
    {
        Ok(match self {
            Mark::Begin(number, lane, call) => Mark::Begin(*number, *lane, call.copied(alloc)?),
            Mark::For(number, first, count) => Mark::For(*number, *first, *count),
            Mark::Answer(number, answer) => Mark::Answer(*number, answer.copied(alloc)?),
            Mark::Now(time) => Mark::Now(*time),
            Mark::End => Mark::End,
        })
    }
}
