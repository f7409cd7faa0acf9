//! The arguments of a call, each a word of its line.

ghost use Rattle.std.specs.Prelude.{◌≡◌};
ghost use Rattle.fs_script.specs.Words.{words_of, word_at, IsRead};
ghost use Rattle.fs_script.specs.Numbers.{mode_of};
ghost use Rattle.fs_script.specs.Texts.{path_of, target_of};
ghost use Rattle.fs_script.specs.Data.{data_of};
ghost use Rattle.fs_script.specs.Choices.{flags_of, exclusive_of};
ghost use Rattle.fs_script.specs.Calls.{fd_of, offset_of};

use crate::choice::{exclusive_of, flags_of};
use crate::data::data_of;
use crate::line::LineFault;
use crate::number::{fd_of, mode_of, offset_of};
use crate::text::{path_of, target_of};
use crate::words::word_at;
use fs_types::Fd;
use smb_base::{Bytes, Text};
use std::alloc::Global;

// The path that is the word with this number.
pub(crate) fn path(alloc: Global, line: &str, n: usize) -> Result<Text, LineFault>
    ensures { IsRead (word_at n path_of (words_of line.now)) result }
{
    match word_at(line, n) {
        Some(word) => path_of(alloc, word),
        None => Err(LineFault::Word),
    }
}

// The target that is that word.
pub(crate) fn target(alloc: Global, line: &str, n: usize) -> Result<Text, LineFault>
    ensures { IsRead (word_at n target_of (words_of line.now)) result }
{
    match word_at(line, n) {
        Some(word) => target_of(alloc, word),
        None => Err(LineFault::Word),
    }
}

// The bytes.
pub(crate) fn data(alloc: Global, line: &str, n: usize) -> Result<Bytes, LineFault>
    ensures { IsRead (word_at n data_of (words_of line.now)) result }
{
    match word_at(line, n) {
        Some(word) => data_of(alloc, word),
        None => Err(LineFault::Word),
    }
}

// The flags.
pub(crate) fn flags(line: &str, n: usize) -> Result<u8, LineFault>
    ensures { result ≡ word_at n flags_of (words_of line.now) }
{
    match word_at(line, n) {
        Some(word) => flags_of(word),
        None => Err(LineFault::Word),
    }
}

// Whether a lock is exclusive.
pub(crate) fn exclusive(line: &str, n: usize) -> Result<bool, LineFault>
    ensures { result ≡ word_at n exclusive_of (words_of line.now) }
{
    match word_at(line, n) {
        Some(word) => exclusive_of(word),
        None => Err(LineFault::Word),
    }
}

// The number of a descriptor.
pub(crate) fn descriptor(line: &str, n: usize) -> Result<Fd, LineFault>
    ensures { result ≡ word_at n fd_of (words_of line.now) }
{
    match word_at(line, n) {
        Some(word) => fd_of(word),
        None => Err(LineFault::Word),
    }
}

// An offset, a length or a size.
pub(crate) fn offset(line: &str, n: usize) -> Result<u64, LineFault>
    ensures { result ≡ word_at n offset_of (words_of line.now) }
{
    match word_at(line, n) {
        Some(word) => offset_of(word),
        None => Err(LineFault::Word),
    }
}

// A mode.
pub(crate) fn mode(line: &str, n: usize) -> Result<u16, LineFault>
    ensures { result ≡ word_at n mode_of (words_of line.now) }
{
    match word_at(line, n) {
        Some(word) => mode_of(word),
        None => Err(LineFault::Word),
    }
}
