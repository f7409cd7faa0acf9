//! The texts of answers.

ghost use Rattle.std.specs.Prelude.{◌≡◌, ◌++◌, IfOk, OnOk, codes, string_bytes};
ghost use Rattle.std.specs.Fmt.{decimal};
ghost use Rattle.std.specs.List.{flat_map};
ghost use Rattle.fs_script.specs.Answers.{text_of, line_of, kind_text, kind_mark, mode_text, status_text, error_text, stat_text, data_text};
ghost use Rattle.fs_script.specs.Answers.{entry_text, listing_text, escaped};

use crate::name::put_name;
use fs_types::{Answer, Kind, Listing, StatOf};
use smb_base::{Bytes, Errno, NoMemory, Status, Text};
use std::alloc::Global;

/// The text of an answer, without a line feed:
///
/// - `ok`, `fd N`, `count N` and `at N`, each number in decimal, as all but a mode and a status;
/// - `data HEX` in lower case, or `data -` for no byte;
/// - `stat KIND SIZE MODE LINKS NUMBER`, where KIND is `file`, `dir` or `link` and MODE is the low twelve bits in four octal digits;
/// - `link TARGET`;
/// - `list N BAD`, and ` d NAME` for each directory of the N names, ` f NAME` for each other;
/// - `room TOTAL FREE`;
/// - `err N`, and with a status `err N STATUS` in eight upper-case hex digits.
///
/// In NAME and TARGET each byte outside 0x21 to 0x7E, and `%` itself, is `%` and two upper-case hex digits.
///
/// # Errors
///
/// It fails only for want of memory.
pub fn answer_text(alloc: Global, a: &Answer) -> Result<Text, NoMemory>
    ensures { IfOk result (λ text. text ≡ text_of a.now) }
{
    match a {
        Answer::Done => Text::of(alloc, "ok"),
        Answer::Descriptor(fd) => number_text(alloc, "fd", u64::from(fd.0)),
        Answer::Count(count) => number_text(alloc, "count", u64::from(*count)),
        Answer::Bytes(bytes) => data_text(alloc, bytes),
        Answer::At(offset) => number_text(alloc, "at", *offset),
        Answer::Stat(stat) => stat_text(alloc, stat),
        Answer::Target(target) => target_text(alloc, target.as_str()),
        Answer::Names(listing) => listing_text(alloc, listing),
        Answer::Room(total, free) => room_text(alloc, *total, *free),
        Answer::Err(errno, None) => number_text(alloc, "err", u64::from(errno.0)),
        Answer::Err(errno, Some(status)) => status_text(alloc, *errno, *status),
    }
}

/// The line of an answer: a number in decimal, a space, the answer's text and a line feed.
///
/// # Errors
///
/// It fails only for want of memory.
pub fn answer_line(alloc: Global, number: u64, a: &Answer) -> Result<Text, NoMemory>
    ensures { IfOk result (λ text. text ≡ line_of number a.now) }
{
    let text = answer_text(alloc, a)?;
    let line = format!(in alloc; "{number} {}\n", text.as_str())?;
    Ok(Text::of_string(line))
}

// A word, and a number behind it.
fn number_text(alloc: Global, word: &str, number: u64) -> Result<Text, NoMemory>
    ensures { IfOk result (λ text. text ≡ word.now ++ (codes " " ++ decimal number)) }
{
    let text = format!(in alloc; "{word} {number}")?;
    Ok(Text::of_string(text))
}

// The bytes that were read.
fn data_text(alloc: Global, bytes: &Bytes) -> Result<Text, NoMemory>
    ensures { IfOk result (λ text. text ≡ codes "data " ++ data_text bytes.now) }
{
    if bytes.is_empty() {
        return Text::of(alloc, "data -");
    }
    let digits = hex::encode(alloc, bytes.as_slice())?;
    let text = format!(in alloc; "data {digits}")?;
    Ok(Text::of_string(text))
}

// What is known of a file.
fn stat_text(alloc: Global, stat: &StatOf) -> Result<Text, NoMemory>
    ensures { IfOk result (λ text. text ≡ stat_text stat.now) }
{
    let mode = mode_text(alloc, stat.mode)?;
    let text = format!(in alloc;
        "stat {} {} {} {} {}",
        kind_text(stat.kind),
        stat.size,
        mode,
        stat.links,
        stat.number
    )?;
    Ok(Text::of_string(text))
}

// A mode in four octal digits.
#[tactic(auto, using(std::proofs::lemmas::Fmt::decimal_digit))]
fn mode_text(alloc: Global, mode: u16) -> Result<String, NoMemory>
    ensures { IfOk result (λ text. string_bytes text ≡ mode_text mode) }
{
    let text = format!(in alloc;
        "{}{}{}{}",
        mode / 512 % 8,
        mode / 64 % 8,
        mode / 8 % 8,
        mode % 8
    )?;
    Ok(text)
}

// What a file is.
fn kind_text(kind: Kind) -> &'static str
    ensures { result.now ≡ kind_text kind }
{
    match kind {
        Kind::File => "file",
        Kind::Dir => "dir",
        Kind::Link => "link",
    }
}

// The target of a link.
fn target_text(alloc: Global, target: &str) -> Result<Text, NoMemory>
    ensures { IfOk result (λ text. text ≡ codes "link " ++ escaped target.now) }
{
    let mut text = String::from_str(alloc, "link ")?;
    put_name(&mut text, target)?;
    Ok(Text::of_string(text))
}

// The names in a directory.
fn listing_text(alloc: Global, listing: &Listing) -> Result<Text, NoMemory>
    ensures { IfOk result (λ text. text ≡ listing_text listing.now) }
{
    let names = listing.names.as_slice();
    let mut text = format!(in alloc; "list {} {}", names.len(), listing.bad)?;
    put_entries(&mut text, names)?;
    Ok(Text::of_string(text))
}

// Adds the names of a directory, each with its mark.
fn put_entries(out: &mut String, entries: &[(Text, Kind)]) -> Result<(), NoMemory>
    ensures { OnOk result (string_bytes out.new ≡ string_bytes out.old ++ flat_map entry_text entries.now) }
{
    for entry in entries {
        put_entry(out, entry.0.as_str(), entry.1)?;
    }
    Ok(())
}

// Adds one name with its mark.
fn put_entry(out: &mut String, name: &str, kind: Kind) -> Result<(), NoMemory>
    ensures { OnOk result (string_bytes out.new ≡ string_bytes out.old ++ entry_text (name.now, kind)) }
{
    out.push_str(kind_mark(kind))?;
    put_name(out, name)
}

// How a listing marks a name.
fn kind_mark(kind: Kind) -> &'static str
    ensures { result.now ≡ kind_mark kind }
{
    match kind {
        Kind::Dir => " d ",
        Kind::File | Kind::Link => " f ",
    }
}

// The room of the share.
fn room_text(alloc: Global, total: u128, free: u128) -> Result<Text, NoMemory>
    ensures { IfOk result (λ text. text ≡ codes "room " ++ (decimal total ++ (codes " " ++ decimal free))) }
{
    let text = format!(in alloc; "room {total} {free}")?;
    Ok(Text::of_string(text))
}

// An error number, and a status of the server.
fn status_text(alloc: Global, errno: Errno, status: Status) -> Result<Text, NoMemory>
    ensures { IfOk result (λ text. text ≡ error_text errno.0 (Some status)) }
{
    let code = status.0;
    let bytes = [
        (code / 16_777_216) as u8,
        (code / 65_536 % 256) as u8,
        (code / 256 % 256) as u8,
        (code % 256) as u8,
    ];
    let digits = hex::encode_upper(alloc, bytes)?;
    let text = format!(in alloc; "err {} {digits}", errno.0)?;
    Ok(Text::of_string(text))
}
