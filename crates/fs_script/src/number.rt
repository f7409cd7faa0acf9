//! The words that are numbers.

ghost use Rattle.std.specs.Prelude.{◌≡◌, ◌≤◌, IfOk, nat_lt, slice_index};
ghost use Rattle.std.specs.List.{list_all};
ghost use Rattle.fs_script.specs.Numbers.{is_digit, is_number, number_of, is_octal, mode_of};
ghost use Rattle.fs_script.specs.Calls.{fd_of, offset_of};

use crate::line::LineFault;
use fs_types::Fd;

/// The most that an offset, a length or a size is.
const MOST: u64 = 9_223_372_036_854_775_807;

// The number of a descriptor.
pub(crate) fn fd_of(word: &str) -> Result<Fd, LineFault>
    ensures { result ≡ fd_of word.now }
{
    let number = number_of(word, u64::from(u32::MAX))?;
    Ok(Fd(number as u32))
}

// An offset, a length or a size.
pub(crate) fn offset_of(word: &str) -> Result<u64, LineFault>
    ensures { result ≡ offset_of word.now }
{
    number_of(word, MOST)
}

// A number in decimal without needless zeros, of at most so much.
fn number_of(word: &str, most: u64) -> Result<u64, LineFault>
    ensures value { result ≡ number_of most word.now }
    ensures small { IfOk result (λ n. n ≤ most) }
{
    if !is_number(word) {
        return Err(LineFault::Number);
    }
    match word.parse::<u64>() {
        Ok(number) => {
            if number <= most {
                Ok(number)
            } else {
                Err(LineFault::Number)
            }
        }
        Err(_) => Err(LineFault::Number),
    }
}

// Whether a word is a number: decimal digits, of which the first is 0 in the word `0` alone.
fn is_number(word: &str) -> bool
    ensures { result ≡ is_number word.now }
{
    all_digits(word.as_bytes()) && (word == "0" || begins_above_zero(word))
}

fn all_digits(bytes: &[u8]) -> bool
    ensures { result ≡ list_all is_digit bytes.now }
{
    bytes.iter().all(|byte| is_digit(*byte))
}

fn is_digit(byte: u8) -> bool
    ensures { result ≡ is_digit byte }
{
    b'0' <= byte && byte <= b'9'
}

fn begins_above_zero(word: &str) -> bool
    ensures { result ≡ nat_lt 0x30 (slice_index word.now 0) }
{
    match word.as_bytes().first() {
        Some(byte) => b'0' < *byte,
        None => false,
    }
}

// A mode: four octal digits, of at most 0777.
pub(crate) fn mode_of(word: &str) -> Result<u16, LineFault>
    ensures { result ≡ mode_of word.now }
{
    match word.as_bytes() {
        [b'0', a, b, c] => {
            if is_octal(*a) && is_octal(*b) && is_octal(*c) {
                Ok(64 * u16::from(*a - b'0') + 8 * u16::from(*b - b'0') + u16::from(*c - b'0'))
            } else {
                Err(LineFault::Number)
            }
        }
        _ => Err(LineFault::Number),
    }
}

fn is_octal(byte: u8) -> bool
    ensures { result ≡ is_octal byte }
{
    b'0' <= byte && byte <= b'7'
}
