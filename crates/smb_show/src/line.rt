//! One line of the input.

ghost use Rattle.std.specs.Prelude.{◌≡◌, ◌++◌, IfOk, MatchResult, Ok, codes};
ghost use Rattle.smb_show.specs.Line.{bytes_of, is_vector};

use crate::fault::LineFault;
use crate::{connect, files, info, names, requests, wire};
use hex::FromHexError;
use std::alloc::Global;
use test_text::Page;

/// Whether a line is a vector: it is not empty and does not begin with `#`.
pub fn is_vector(line: &str) -> bool
    ensures { result ≡ is_vector line.now }
{
    match line.as_bytes().first() {
        Some(byte) => *byte != b'#',
        None => false,
    }
}

/// The lines of a vector: its kind, and its fields or its fault.
pub fn shown(alloc: Global, line: &str) -> Result<Page, LineFault> {
    let (kind, digits) = words_of(line)?;
    let bytes = bytes_of(alloc, digits)?;
    let mut page = Page::new(alloc);
    page.kind(kind)?;
    if !is_shown(&mut page, kind, &bytes)? {
        return Err(LineFault::Kind);
    }
    Ok(page)
}

// The two words of a line, at its first space.
fn words_of(line: &str) -> Result<(&str, &str), LineFault>
    ensures { MatchResult result
        (λ words. line.now ≡ words.0.now ++ (codes " " ++ words.1.now))
        (λ fault. fault ≡ LineFault.Words) }
{
    match line.split_once(' ') {
        Some(words) => Ok(words),
        None => Err(LineFault::Words),
    }
}

// Adds the fields of a vector, if there is such a kind.
fn is_shown(page: &mut Page, kind: &str, bytes: &[u8]) -> Result<bool, LineFault> {
    Ok(
        connect::show(page, kind, bytes)?
            || files::show(page, kind, bytes)?
            || requests::show(page, kind, bytes)?
            || info::show(page, kind, bytes)?
            || wire::show(page, kind, bytes)?
            || names::show(page, kind, bytes)?,
    )
}

// The bytes that hex digits spell; `-` is none.
fn bytes_of(alloc: Global, digits: &str) -> Result<Vec<u8>, LineFault>
    ensures { IfOk result (λ bytes. bytes_of digits.now ≡ Ok bytes.items) }
{
    if digits == "-" {
        return Ok(Vec::new(alloc));
    }
    if digits.is_empty() {
        return Err(LineFault::Words);
    }
    match hex::decode(alloc, digits) {
        Ok(bytes) => Ok(bytes),
        Err(FromHexError::OutOfMemory) => Err(LineFault::NoMemory),
        Err(_) => Err(LineFault::Hex),
    }
}
