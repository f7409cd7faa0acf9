//! The entries of a directory (MS-FSCC 2.4, FileIdFullDirectoryInformation).

ghost use Rattle.std.specs.Prelude.{◌≡◌, ◌≢◌, true, false, ◌++◌, ◌^◌, ◌<◌, ◌≤◌, IsOk, OnOk, OnErr, MatchOption, length, take, drop, replicate};
ghost use Rattle.smb_field.specs.Structure.{IsReadAgainIn, WritesStructure};
ghost use Rattle.smb_info.specs.Directory.{seen, dir_entry, entry_spelling, IsEntry, ReadsEntry, step_of, seen_step, entries_of, IsListing, IsPlaced, padded, WritesEntry};
ghost use Rattle.smb_info.specs.declared.entries.DirEntry.{DirEntry};

use crate::fault::InfoFault;
use smb_base::NoMemory;
use smb_field::{Field, lent, put_structure};
use smb_le::{get_u32, get_u64};
use std::marker::Model;

/// Class 38: one entry of a directory (MS-FSCC 2.4, FileIdFullDirectoryInformation).
#[derive(Drop)]
pub struct DirEntry<'a> {
    /// The offset of the next entry from the start of this one, in bytes, or 0 in the last one.
    pub next: u32,
    /// The place of the entry in the directory. Many file systems leave it undefined.
    pub index: u32,
    /// The times of creation, last access, last write and change, in units of 100 nanoseconds since 1601.
    pub times: [u64; 4],
    /// How many bytes the file has.
    pub end_of_file: u64,
    /// How many bytes the file takes.
    pub allocation_size: u64,
    /// The attributes.
    pub attributes: u32,
    /// How many bytes the extended attributes take.
    pub ea_size: u32,
    /// The number of the file.
    pub number: u64,
    /// The name, in UTF-16.
    pub name: &'a [u8],
}

/// The name that MS-FSCC has for the class of such entries.
pub type IdFullDirectory<'a> = DirEntry<'a>;

impl<'a> DirEntry<'a> {
    /// Whether the next entry, where there is one, begins behind this one's name, as [`write_id_full_directory`] needs it.
    pub fn is_placed(&self) -> bool
        ensures yes { result ≡ true → IsPlaced (seen self.now) }
        ensures no { result ≡ false → ¬ IsPlaced (seen self.now) }
    {
        self.next == 0 || 80 + self.name.len() <= self.next as usize
    }

    /// How many bytes the entry takes in a listing before another: 80 and its name, raised to a multiple of 8. This is what `next`
    /// is to be there.
    pub fn padded(&self) -> usize
        ensures { result ≡ padded self.now.name.now }
    {
        (80 + self.name.len() + 7) / 8 * 8
    }
}

/// Reads the first entry of a directory's information. The name is lent from it. It takes no memory.
///
/// # Errors
///
/// In this order: [`InfoFault::Short`] where there are fewer than 80 bytes; [`InfoFault::Next`] where the offset of the next entry
/// is not 0 and under 80, or leaves the information; [`InfoFault::Short`] where the name leaves it.
pub fn read_id_full_directory(info: &[u8]) -> Result<DirEntry<'_>, InfoFault>
    ensures reads { ReadsEntry info.now result }
    ensures only { (x : DirEntry) → IsEntry (seen x) info.now → IsOk result }
{
    if info.len() < 80 {
        return Err(InfoFault::Short);
    }
    let next = get_u32(info, 0);
    if next != 0 && (next < 80 || info.len() < next as usize) {
        return Err(InfoFault::Next);
    }
    let Some(name) = lent(info, 80, 80, get_u32(info, 60)) else {
        return Err(InfoFault::Short);
    };
    Ok(DirEntry {
        next,
        index: get_u32(info, 4),
        times: [
            get_u64(info, 8),
            get_u64(info, 16),
            get_u64(info, 24),
            get_u64(info, 32),
        ],
        end_of_file: get_u64(info, 40),
        allocation_size: get_u64(info, 48),
        attributes: get_u32(info, 56),
        ea_size: get_u32(info, 64),
        number: get_u64(info, 72),
        name,
    })
}

/// Appends zero bytes. For want of memory what was there still leads.
fn pad(out: &mut Vec<u8>, count: usize) -> Result<(), NoMemory>
    ensures ok { OnOk result (out.new.items ≡ out.old.items ++ replicate count 0) }
    ensures err { OnErr result (take (length out.old.items) out.new.items ≡ out.old.items) }
{
    for _ in 0..count {
        out.push(0)?;
    }
    Ok(())
}

/// Appends an entry's fields and its name. For want of memory nothing is changed.
fn put_named(out: &mut Vec<u8>, x: &DirEntry<'_>) -> Result<(), NoMemory>
    requires { length x.now.name.now < 2 ^ 32 }
    ensures { WritesStructure (dir_entry (seen x.now)) x.now.name.now out.old.items out.new.items result }
{
    put_structure(
        out,
        80,
        &[
            Field::U32(x.next),
            Field::U32(x.index),
            Field::U64(x.times[0]),
            Field::U64(x.times[1]),
            Field::U64(x.times[2]),
            Field::U64(x.times[3]),
            Field::U64(x.end_of_file),
            Field::U64(x.allocation_size),
            Field::U32(x.attributes),
            Field::U32(x.name.len() as u32),
            Field::U32(x.ea_size),
            Field::Any32(0),
            Field::U64(x.number),
            Field::Follows,
        ],
        x.name,
    )
}

/// Appends an entry. For want of memory what was there still leads.
#[tactic(auto, unfolding(crate::specs::Directory::entry_spelling))]
fn put_entry(out: &mut Vec<u8>, x: &DirEntry<'_>) -> Result<(), NoMemory>
    requires { length x.now.name.now < 2 ^ 32 }
    ensures ok { OnOk result ((out.new.items ≡ out.old.items ++ entry_spelling (seen x.now)) × IsReadAgainIn (dir_entry (seen x.now)) x.now.name.now) }
    ensures err { OnErr result (take (length out.old.items) out.new.items ≡ out.old.items) }
{
    match put_named(out, x) {
        Ok(()) => pad(out, (x.next as usize).saturating_sub(80 + x.name.len())),
        Err(fault) => Err(fault),
    }
}

/// Appends an entry: its fields, its name, and zero bytes up to the next entry, where `next` is not 0. So a listing is the entries
/// one after another, each but the last with its [`DirEntry::padded`] as `next`. For want of memory nothing is changed.
pub fn write_id_full_directory(out: &mut Vec<u8>, x: &DirEntry<'_>) -> Result<(), NoMemory>
    requires short { length x.now.name.now < 2 ^ 32 }
    requires placed { IsPlaced (seen x.now) }
    ensures { WritesEntry (seen x.now) out.old.items out.new.items result }
{
    let start = out.len();
    match put_entry(out, x) {
        Ok(()) => Ok(()),
        Err(fault) => {
            out.truncate(start);
            Err(fault)
        }
    }
}

/// The first entry of a directory's information, and the bytes from the next one on where there is one.
fn first_entry(info: &[u8]) -> Result<(DirEntry<'_>, Option<&[u8]>), InfoFault>
    ensures { seen_step result ≡ step_of info.now }
{
    match read_id_full_directory(info) {
        Ok(entry) => {
            let rest = after(info, entry.next);
            Ok((entry, rest))
        }
        Err(fault) => Err(fault),
    }
}

/// The bytes from an offset on, where it is not 0.
fn after(info: &[u8], next: u32) -> Option<&[u8]>
    requires { next ≤ length info.now }
    ensures { MatchOption result (next ≡ 0) (λ rest. (next ≢ 0) × (rest.now ≡ drop next info.now)) }
{
    if next == 0 {
        None
    } else {
        Some(&info[next as usize..])
    }
}

/// Goes over the entries of a directory. A contract sees the list of those to come, each as its value or as a fault.
#[derive(Drop)]
pub struct Entries<'a> {
    left: Option<&'a [u8]>,
}

impl<'a> Model for Entries<'a> {
    ghost use Rattle.std.specs.Prelude.{List, Result};
    ghost use Rattle.smb_info.specs.declared.fault.InfoFault.{InfoFault};
    ghost use Rattle.smb_info.specs.Directory.{Entry};

    ghost Value = { List (Result Entry InfoFault) };

    ghost use Rattle.smb_info.specs.Directory.{entries_left};

    ghost view = { λ e. entries_left e.left };
}

impl<'a> Entries<'a> {
    /// The entries of a directory's information, in the order of the chain of their offsets, which ends at an entry whose `next` is 0.
    /// After a fault nothing comes. Empty information has no entry. It takes no memory.
    pub fn new(info: &'a [u8]) -> Entries<'a>
        ensures value { result ≡ entries_of info.now }
        ensures chain { IsListing result info.now }
    {
        if info.is_empty() {
            Entries { left: None }
        } else {
            Entries { left: Some(info) }
        }
    }
}

impl<'a> Iterator for Entries<'a> {
    type Item = Result<DirEntry<'a>, InfoFault>;

    ghost use Rattle.std.specs.Iterator.{YieldsFirstBy, item_count};
    ghost use Rattle.smb_info.specs.Directory.{seen_item};

    ghost next_gives = { YieldsFirstBy seen_item (λ s. s) };

    ghost remaining = { item_count (λ s. s) };

    #[tactic(auto, using(crate::proofs::EntryLaws::iterator_steps))]
    fn next(&mut self) -> Option<Result<DirEntry<'a>, InfoFault>> {
        let info = self.left.take()?;
        match first_entry(info) {
            Ok((entry, rest)) => {
                self.left = rest;
                Some(Ok(entry))
            }
            Err(fault) => Some(Err(fault)),
        }
    }
}
