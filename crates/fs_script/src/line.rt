//! A line of a script.

ghost use Rattle.std.specs.Prelude.{◌≡◌, ◌≢◌, ◌⊎◌, true, IfOk, IfErr};
ghost use Rattle.fs_script.specs.Words.{words_of, word_at, IsRead};
ghost use Rattle.fs_script.specs.Calls.{name_of};
ghost use Rattle.fs_script.specs.Lines.{is_skip, lane_of, said_by, has_call};

use crate::call::call_of;
use crate::call_name::{CallName, name_of};
use crate::words::word_at;
use fs_types::Call;
use std::alloc::Global;
use thiserror::Error;

/// A line of a script.
#[derive(Debug, Drop)]
pub enum Line {
    /// A call, and the number of its lane.
    Call(u8, Call),
    /// A pause: the lines behind it begin once no call runs.
    Wait,
    /// Nothing to do: an empty line, or one that begins with `#`.
    Skip,
}

/// What is wrong with a line: the first that stands.
#[derive(Clone, Copy, Debug, PartialEq, Eq, Error)]
pub enum LineFault {
    /// It has more than 540,000 bytes.
    #[error("the line is too long")]
    TooLong,
    /// Its first word is no lane.
    #[error("no such lane")]
    Lane,
    /// The second word names no call, or a word is missing, is one too many, or should be flags or the kind of a lock and is none.
    #[error("a wrong word")]
    Word,
    /// A word should be a number or a mode, and is none.
    #[error("no number")]
    Number,
    /// A word should be a path or a target, and is none.
    #[error("no path")]
    Path,
    /// A word should be bytes in hex, and is none.
    #[error("no bytes in hex")]
    Hex,
    /// Memory ran out.
    #[error("out of memory")]
    NoMemory,
}

/// The most bytes that a line has.
const LONGEST: usize = 540_000;

/// Reads a line of a script, given without its line feed:
///
/// - an empty line, or one that begins with `#`: [`Line::Skip`];
/// - `wait`: [`Line::Wait`];
/// - `LANE CALL ARGUMENTS`, with single spaces between the words: [`Line::Call`]. LANE is a number from 0 to 15. The calls and their
///   arguments are
///
/// ```text
/// open PATH FLAGS       pread FD OFF LEN     stat PATH      rename OLD NEW        lock FD OFF LEN s
/// dup FD                read FD LEN          lstat PATH     link OLD NEW          lock FD OFF LEN x
/// close FD              pwrite FD OFF HEX    unlink PATH    symlink TARGET PATH   unlock FD OFF LEN
/// fsync FD              write FD HEX         rmdir PATH     readlink PATH         statfs
/// ftruncate FD LEN      append FD HEX        mkdir PATH     list PATH
/// seek FD OFF           fstat FD             chmod PATH MODE
/// ```
///
/// Numbers are decimal without needless zeros: FD at most 4294967295, OFF and LEN at most 9223372036854775807. FLAGS is `r`, `w` or `rw`,
/// then perhaps `c` or `cx`, then perhaps `t`. MODE is four octal digits, at most 0777. HEX is two lower-case hex digits for each byte,
/// or `-` for no byte. In PATH, OLD, NEW and TARGET any byte may be written as `%` and two upper-case hex digits, a `%` itself has to
/// be; they are UTF-8 and have no zero byte, and all but TARGET, which may be empty, begin with `/`.
///
/// # Errors
///
/// A line of more than 540,000 bytes is `TooLong`, whatever it says. Of any other the first word from the left that is wrong decides,
/// and a missing one stands behind the last: it is `Lane`, `Number`, `Path` or `Hex` where such a word was to stand there, and else
/// `Word`. `NoMemory` comes only where the line has a lane and the name of a call.
pub fn read_line(alloc: Global, line: &str) -> Result<Line, LineFault>
    ensures line { IfOk result (λ l. said_by line.now ≡ Ok l) }
    ensures fault { IfErr result (λ fault. (fault ≡ LineFault.NoMemory) ⊎ (said_by line.now ≡ Err fault)) }
    ensures no_memory { result ≡ Err LineFault.NoMemory → has_call line.now ≡ true }
{
    if line.len() > LONGEST {
        return Err(LineFault::TooLong);
    }
    if is_skip(line) {
        return Ok(Line::Skip);
    }
    if line == "wait" {
        return Ok(Line::Wait);
    }
    let lane = lane(line)?;
    let name = name(line)?;
    let call = call_of(alloc, name, line)?;
    Ok(Line::Call(lane, call))
}

// Whether a line is empty or a comment.
fn is_skip(line: &str) -> bool
    ensures { result ≡ is_skip line.now }
{
    match line.as_bytes().first() {
        Some(byte) => *byte == b'#',
        None => true,
    }
}

// The lane of a line.
fn lane(line: &str) -> Result<u8, LineFault>
    ensures lane { result ≡ word_at 0 lane_of (words_of line.now) }
    ensures fault { IfErr result (λ fault. fault ≢ LineFault.NoMemory) }
{
    match word_at(line, 0) {
        Some(word) => lane_of(word),
        None => Err(LineFault::Word),
    }
}

// The name of the call of a line.
fn name(line: &str) -> Result<CallName, LineFault>
    ensures name { result ≡ word_at 1 name_of (words_of line.now) }
    ensures fault { IfErr result (λ fault. fault ≢ LineFault.NoMemory) }
{
    match word_at(line, 1) {
        Some(word) => name_of(word),
        None => Err(LineFault::Word),
    }
}

// The lane that a word names.
fn lane_of(word: &str) -> Result<u8, LineFault>
    ensures lane { result ≡ lane_of word.now }
    ensures fault { IfErr result (λ fault. fault ≡ LineFault.Lane) }
{
    match word {
        "0" => Ok(0),
        "1" => Ok(1),
        "2" => Ok(2),
        "3" => Ok(3),
        "4" => Ok(4),
        "5" => Ok(5),
        "6" => Ok(6),
        "7" => Ok(7),
        "8" => Ok(8),
        "9" => Ok(9),
        "10" => Ok(10),
        "11" => Ok(11),
        "12" => Ok(12),
        "13" => Ok(13),
        "14" => Ok(14),
        "15" => Ok(15),
        _ => Err(LineFault::Lane),
    }
}
