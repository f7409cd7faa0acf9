//! The words that are paths and targets.

ghost use Rattle.std.specs.Prelude.{◌≡◌, ◌<◌, ◌==◌, ◌++◌, IfErr, OnOk, IfSome, option_to_list, slice_index};
ghost use Rattle.std.specs.List.{list_any};
ghost use Rattle.fs_script.specs.Words.{IsRead};
ghost use Rattle.fs_script.specs.Texts.{upper_value, behind, IsSound, unescaped, as_target, target_of, path_of};

use crate::line::LineFault;
use smb_base::{Bytes, Text};
use std::alloc::Global;

/// Where a byte of a word stands.
#[derive(Clone, Copy)]
pub(crate) enum Escape {
    /// In no escape.
    Outside,
    /// Behind its `%`.
    Percent,
    /// Behind its first digit, which has this value.
    Digit(u8),
}

// A path: it begins with a slash.
pub(crate) fn path_of(alloc: Global, word: &str) -> Result<Text, LineFault>
    ensures { IsRead (path_of word.now) result }
{
    match target_of(alloc, word) {
        Ok(path) => {
            if begins_with_slash(path.as_str()) {
                Ok(path)
            } else {
                Err(LineFault::Path)
            }
        }
        Err(fault) => Err(fault),
    }
}

fn begins_with_slash(path: &str) -> bool
    ensures { result ≡ (slice_index path.now 0 == 0x2F) }
{
    match path.as_bytes().first() {
        Some(byte) => *byte == b'/',
        None => false,
    }
}

// The target of a link: UTF-8 without a zero byte.
pub(crate) fn target_of(alloc: Global, word: &str) -> Result<Text, LineFault>
    ensures { IsRead (target_of word.now) result }
{
    match unescaped(alloc, word) {
        Ok(bytes) => text_of(bytes),
        Err(fault) => Err(fault),
    }
}

// The text of these bytes.
fn text_of(bytes: Bytes) -> Result<Text, LineFault>
    ensures { result ≡ as_target bytes }
{
    if has_zero(bytes.as_slice()) {
        return Err(LineFault::Path);
    }
    match String::from_utf8(bytes.into_vec()) {
        Ok(text) => Ok(Text::of_string(text)),
        Err(_) => Err(LineFault::Path),
    }
}

fn has_zero(bytes: &[u8]) -> bool
    ensures { result ≡ list_any (λ b. b == 0) bytes.now }
{
    bytes.iter().any(|byte| *byte == 0)
}

// The bytes that a word stands for; `Path` where a `%` has no two upper-case hex digits behind it.
fn unescaped(alloc: Global, word: &str) -> Result<Bytes, LineFault>
    ensures { IsRead (unescaped word.now) result }
{
    let Ok(mut out) = Vec::with_capacity(alloc, word.len()) else {
        return Err(LineFault::NoMemory);
    };
    let mut begun = Escape::Outside;
    for byte in word.as_bytes() {
        match behind(begun, *byte) {
            Some((next, stands)) => {
                begun = next;
                put(&mut out, stands)?;
            }
            None => return Err(LineFault::Path),
        }
    }
    match begun {
        Escape::Outside => Ok(Bytes::of_vec(out)),
        _ => Err(LineFault::Path),
    }
}

// Adds a byte, where there is one.
fn put(out: &mut Vec<u8>, byte: Option<u8>) -> Result<(), LineFault>
    ensures ok { OnOk result (out.new.items ≡ out.old.items ++ option_to_list byte) }
    ensures err { IfErr result (λ fault. fault ≡ LineFault.NoMemory) }
{
    if let Some(byte) = byte {
        if out.push(byte).is_err() {
            return Err(LineFault::NoMemory);
        }
    }
    Ok(())
}

// What comes behind a byte, and which byte it stands for, if it ends one.
fn behind(begun: Escape, byte: u8) -> Option<(Escape, Option<u8>)>
    requires { IsSound begun }
    ensures behind { result ≡ behind begun byte }
    ensures sound { IfSome result (λ x. IsSound x.0) }
{
    match begun {
        Escape::Outside => {
            if byte == b'%' {
                Some((Escape::Percent, None))
            } else {
                Some((Escape::Outside, Some(byte)))
            }
        }
        Escape::Percent => match upper_value(byte) {
            Some(high) => Some((Escape::Digit(high), None)),
            None => None,
        },
        Escape::Digit(high) => match upper_value(byte) {
            Some(low) => Some((Escape::Outside, Some(16 * high + low))),
            None => None,
        },
    }
}

// The value of an upper-case hex digit.
fn upper_value(byte: u8) -> Option<u8>
    ensures value { result ≡ upper_value byte }
    ensures small { IfSome result (λ n. n < 16) }
{
    match byte {
        b'0'..=b'9' => Some(byte - b'0'),
        b'A'..=b'F' => Some(byte - b'A' + 10),
        _ => None,
    }
}
