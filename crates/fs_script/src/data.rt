//! The words that are bytes.

ghost use Rattle.std.specs.Prelude.{◌≡◌, ◌==◌, ◌&&◌, not, length};
ghost use Rattle.std.specs.List.{list_all};
ghost use Rattle.fs_script.specs.Words.{IsRead};
ghost use Rattle.fs_script.specs.Data.{is_lower, decoded, data_of};
ghost use Rattle.hex.specs.Hex.{decode_of};

use crate::line::LineFault;
use hex::FromHexError;
use smb_base::Bytes;
use std::alloc::Global;

// Bytes: two lower-case hex digits for each, or `-` for none.
pub(crate) fn data_of(alloc: Global, word: &str) -> Result<Bytes, LineFault>
    ensures { IsRead (data_of word.now) result }
{
    if word == "-" {
        return Ok(Bytes::new(alloc));
    }
    if are_digits(word) {
        return decoded(alloc, word);
    }
    Err(LineFault::Hex)
}

// The bytes of digits.
fn decoded(alloc: Global, digits: &str) -> Result<Bytes, LineFault>
    ensures { IsRead (decoded (decode_of digits.now)) result }
{
    match hex::decode(alloc, digits) {
        Ok(bytes) => Ok(Bytes::of_vec(bytes)),
        Err(FromHexError::OutOfMemory) => Err(LineFault::NoMemory),
        Err(_) => Err(LineFault::Hex),
    }
}

// Whether a word is of lower-case hex digits, one at least.
fn are_digits(word: &str) -> bool
    ensures { result ≡ (not (length word.now == 0) && list_all is_lower word.now) }
{
    !word.is_empty() && all_lower(word.as_bytes())
}

fn all_lower(bytes: &[u8]) -> bool
    ensures { result ≡ list_all is_lower bytes.now }
{
    bytes.iter().all(|byte| is_lower(*byte))
}

fn is_lower(byte: u8) -> bool
    ensures { result ≡ is_lower byte }
{
    (b'0' <= byte && byte <= b'9') || (b'a' <= byte && byte <= b'f')
}
