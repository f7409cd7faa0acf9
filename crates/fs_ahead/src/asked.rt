//! What the lines of a script ask for.

use fs_types::Call;

/// A call that a line asks for.
#[derive(Debug, Drop)]
pub struct ScriptCall {
    /// The line's number.
    pub number: u64,
    /// Its lane.
    pub lane: u8,
    /// The call.
    pub call: Call,
}

/// What a line asks for.
#[derive(Debug, Drop)]
pub enum Asked {
    /// A call.
    Call(ScriptCall),
    /// A pause: no later line's call begins before each call is answered.
    Wait,
}

/// Why no more lines are read.
#[derive(Clone, Copy, Debug, PartialEq, Eq)]
pub enum Over {
    /// The script is at its end.
    End,
    /// The line with this number is refused.
    Line(u64),
    /// The source failed.
    Source,
}
