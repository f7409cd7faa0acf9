//! The words of a line.

ghost use Rattle.std.specs.Prelude.{◌≡◌, ◌↔◌, IsOk, length};

use anyhow::{Context, Result, ensure};

/// The first word of a line, and what follows the space behind it.
pub fn cut(line: &str) -> (&str, &str) {
    match line.split_once(' ') {
        Some(parts) => parts,
        None => (line, ""),
    }
}

/// A number in decimal digits, with no sign and no needless zero.
pub fn number(word: &str) -> Result<u64> {
    ensure!(is_plain(word), "{word:?} is no number");
    word.parse::<u64>()
        .context(format_args!("{word:?} is no number"))
}

/// Whether a word begins with a digit that is not needless.
fn is_plain(word: &str) -> bool {
    match word.as_bytes() {
        [only] => b'0' <= *only && *only <= b'9',
        [first, ..] => b'1' <= *first && *first <= b'9',
        [] => false,
    }
}

/// A number below 65,536.
pub fn small(word: &str) -> Result<u16> {
    u16::try_from(number(word)?).context("a number that is too great")
}

/// A number below 4,294,967,296.
pub fn medium(word: &str) -> Result<u32> {
    u32::try_from(number(word)?).context("a number that is too great")
}

/// A number that counts what lies in memory.
pub fn count(word: &str) -> Result<usize> {
    usize::try_from(number(word)?).context("a number that is too great")
}

/// The number that these hex digits have, eight at most.
pub fn hex32(word: &str) -> Result<u32> {
    ensure!(word.len() <= 8, "{word:?} has more than eight hex digits");
    u32::from_str_radix(word, 16).context(format_args!("{word:?} is no number in hex"))
}

/// The number that these hex digits have, sixteen at most.
pub fn hex64(word: &str) -> Result<u64> {
    ensure!(
        word.len() <= 16,
        "{word:?} has more than sixteen hex digits"
    );
    u64::from_str_radix(word, 16).context(format_args!("{word:?} is no number in hex"))
}

/// That nothing follows.
pub fn nothing(rest: &str) -> Result<()>
    ensures { IsOk result ↔ (length rest.now ≡ 0) }
{
    ensure!(rest.is_empty(), "{rest:?} is one word too many");
    Ok(())
}
