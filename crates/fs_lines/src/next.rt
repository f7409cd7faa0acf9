//! The next line.

use smb_base::Text;

/// What comes next.
#[derive(Debug, Drop)]
pub enum NextLine {
    /// A line, without its LF.
    Line(Text),
    /// The line is not UTF-8.
    NotText,
    /// The line has more than `MAX_LINE` bytes.
    TooLong,
    /// No byte is left.
    End,
    /// A read failed.
    Failed,
    /// Memory ran out.
    NoMemory,
}
