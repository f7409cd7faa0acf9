//! The lines of the faults that a ping and a run of a script both have.

ghost use Rattle.std.specs.Prelude.{◌≡◌, IfOk};
ghost use Rattle.fs_top.specs.FaultLines.{dialect_line, frame_line, connects_line};

use smb_base::{NoMemory, Text};
use std::alloc::Global;

/// The line of want of memory, which takes none.
pub(crate) const MEMORY_LINE: &str = "fault 3 memory\n";

/// The line of a connection that was lost, or silent for too long.
pub(crate) const CUTS_LINE: &str = "fault 6 cuts 1\n";

/// The line of a server that took another dialect, in four upper-case hex digits. It fails only for want of memory.
pub(crate) fn dialect_line(alloc: Global, dialect: u16) -> Result<Text, NoMemory>
    ensures { IfOk result (λ text. text ≡ dialect_line dialect) }
{
    let digits = hex::encode_upper(alloc, [(dialect / 256) as u8, (dialect % 256) as u8])?;
    let text = format!(in alloc; "fault 4 mount dialect 0x{digits}\n")?;
    Ok(Text::of_string(text))
}

/// The line of a wrong frame: its number, and the word for what is wrong with it. It fails only for want of memory.
pub(crate) fn frame_line(alloc: Global, number: u32, word: &str) -> Result<Text, NoMemory>
    ensures { IfOk result (λ text. text ≡ frame_line number word.now) }
{
    let text = format!(in alloc; "fault 5 frame {number} {word}\n")?;
    Ok(Text::of_string(text))
}

/// The line of so many connects that failed in a row. It fails only for want of memory.
pub(crate) fn connects_line(alloc: Global, number: u32) -> Result<Text, NoMemory>
    ensures { IfOk result (λ text. text ≡ connects_line number) }
{
    let text = format!(in alloc; "fault 6 connects {number}\n")?;
    Ok(Text::of_string(text))
}
