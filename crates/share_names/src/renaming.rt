//! Rename: the entry of an open gets another name and directory.

ghost use Rattle.std.specs.Prelude.{◌≡◌, IfOk, OnOk, OnErr, option_map};
ghost use Rattle.share_state.specs.NewNames.{last_name, directory_at, entry_at, has_open_beneath, refusal_of_renaming, refusal_of_directory, refusal_of_replacing, refusal_of_moving, refusal_of_target, refusal_of_rename, renamed, rename_of};
ghost use Rattle.share_state.specs.Place.{place_of};

use crate::names::components;
use crate::place::place_of;
use crate::target::{directory_at, entry_at, last_name, refusal_of_path};
use crate::tree::{is_beneath, is_entry_beneath};
use share_state::{
    Found, Open, Place, Rep, Share, Who, has, has_entries, has_open_of_entry, is_directory,
    is_going, is_pending, is_read_only, of_status, open_of,
};
use smb_base::{Fid, NoMemory, Status, Units};
use std::alloc::Global;

const DELETE: u32 = 0x10000;

const ROOT: u64 = 1;

// Some open was made by an entry beneath a directory. Nothing is beneath a file, nor a directory without entries.
fn has_open_beneath(s: &Share, node: u64) -> bool
    ensures { result ≡ has_open_beneath s.now node }
{
    let entries = s.entries.as_slice();
    has_entries(entries, node)
        && s.opens
            .as_slice()
            .iter()
            .any(|open| is_entry_beneath(entries, node, open.entry))
}

// Why an open's entry cannot have any other name.
fn refusal_of_renaming(s: &Share, open: &Open) -> Option<Status>
    ensures { option_map (λ f. f.0) result ≡ refusal_of_renaming s.now «open».now }
{
    if !has(open.access, DELETE) || open.node == ROOT {
        return Some(Status::ACCESS_DENIED);
    }
    if is_pending(s.entries.as_slice(), open.entry) {
        return Some(Status::DELETE_PENDING);
    }
    None
}

// Why an open's entry cannot come into a directory.
fn refusal_of_directory(s: &Share, open: &Open, directory: u64) -> Option<Status>
    ensures { option_map (λ f. f.0) result ≡ refusal_of_directory s.now «open».now directory }
{
    let entries = s.entries.as_slice();
    if is_going(entries, directory) {
        return Some(Status::DELETE_PENDING);
    }
    if directory == open.node || is_beneath(entries, entries, open.node, directory) {
        return Some(Status::INVALID_PARAMETER);
    }
    None
}

// Why another entry cannot be replaced.
fn refusal_of_replacing(s: &Share, replace: bool, found: Found) -> Option<Status>
    ensures { option_map (λ f. f.0) result ≡ refusal_of_replacing s.now replace found }
{
    if !replace {
        return Some(Status::OBJECT_NAME_COLLISION);
    }
    if is_pending(s.entries.as_slice(), found.entry) {
        return Some(Status::DELETE_PENDING);
    }
    if is_directory(s.nodes.as_slice(), found.node)
        || is_read_only(s.nodes.as_slice(), found.node)
        || has_open_of_entry(s.opens.as_slice(), found.entry)
    {
        return Some(Status::ACCESS_DENIED);
    }
    None
}

// Why a directory cannot get another place.
fn refusal_of_moving(s: &Share, open: &Open) -> Option<Status>
    ensures { option_map (λ f. f.0) result ≡ refusal_of_moving s.now «open».now }
{
    if has_open_beneath(s, open.node) {
        return Some(Status::ACCESS_DENIED);
    }
    None
}

// Why an open's entry cannot get the name at this place.
fn refusal_of_target(s: &Share, open: &Open, replace: bool, place: &Place) -> Option<Status>
    ensures { option_map (λ f. f.0) result ≡ refusal_of_target s.now «open».now replace place.now }
{
    match place {
        Place::NoPath => None,
        Place::Missing(_, _) => refusal_of_moving(s, open),
        Place::There(found) => {
            if found.entry == open.entry {
                return None;
            }
            if let Some(status) = refusal_of_replacing(s, replace, *found) {
                return Some(status);
            }
            refusal_of_moving(s, open)
        }
    }
}

// Why a Rename is refused, given where its path leads.
fn refusal_of_rename(
    s: &Share,
    open: &Open,
    replace: bool,
    names: &[Units],
    place: &Place,
) -> Option<Status>
    requires led { place.now ≡ place_of s.now names.now }
    ensures { option_map (λ f. f.0) result ≡ refusal_of_rename s.now «open».now replace names.now }
{
    if let Some(status) = refusal_of_renaming(s, open) {
        return Some(status);
    }
    if let Some(status) = refusal_of_path(s, names, place) {
        return Some(status);
    }
    if let Some(status) = refusal_of_directory(s, open, directory_at(s, place)) {
        return Some(status);
    }
    refusal_of_target(s, open, replace, place)
}

// Gives an entry this directory and name in place of its own, and of another entry that had them.
fn move_entry(s: &mut Share, number: u64, directory: u64, name: Units, replaced: u64)
    ensures { s.new ≡ renamed s.old number directory name replaced }
{
    s.entries.remove_replaced(number, replaced);
    s.entries.rename(number, directory, name);
    s.nodes.keep(s.opens.as_slice(), s.entries.as_slice());
}

// Gives an entry the name at this place, where the path with these components leads. For want of memory nothing is changed.
fn rename_entry(
    alloc: Global,
    s: &mut Share,
    number: u64,
    names: &[Units],
    place: &Place,
) -> Result<(), NoMemory>
    ensures ok { OnOk result (s.new ≡ renamed s.old number (directory_at s.old place.now) (last_name names.now) (entry_at place.now)) }
    ensures err { OnErr result (s.new ≡ s.old) }
{
    let name = last_name(alloc, names)?;
    let directory = directory_at(s, place);
    move_entry(s, number, directory, name, entry_at(place));
    Ok(())
}

/// A Rename: the entry of an open gets the name that a path says, and with `replace` takes it from another file. The reply is
/// FILE_CLOSED, or the first of: ACCESS_DENIED without DELETE and for the root; DELETE_PENDING where the entry is to go;
/// OBJECT_NAME_INVALID; OBJECT_PATH_NOT_FOUND; OBJECT_NAME_COLLISION for the root's path; DELETE_PENDING where the new directory is to
/// go; INVALID_PARAMETER where it lies within the renamed one; where another entry has the name OBJECT_NAME_COLLISION without
/// `replace`, DELETE_PENDING where that one is to go, ACCESS_DENIED where it is a directory, read-only or open; ACCESS_DENIED where
/// something beneath the renamed directory is open, unless the name is the entry's own, which is then spelled anew. A refused Rename
/// changes nothing (MS-FSA 2.1.5.15.11). It fails only for want of memory, and then changes nothing.
pub fn rename(
    alloc: Global,
    s: &mut Share,
    who: Who,
    fid: Fid,
    replace: bool,
    path: &Units,
) -> Result<Rep, NoMemory>
    ensures ok { IfOk result (λ rep. rename_of s.old who fid replace path.now ≡ (rep, s.new)) }
    ensures err { OnErr result (s.new ≡ s.old) }
{
    let Some(open) = open_of(s.opens.as_slice(), who, fid) else {
        return Ok(of_status(Status::FILE_CLOSED));
    };
    let names = components(alloc, path.as_slice())?;
    let place = place_of(alloc, s, names.as_slice())?;
    if let Some(status) = refusal_of_rename(s, open, replace, names.as_slice(), &place) {
        return Ok(of_status(status));
    }
    let number = open.entry;
    rename_entry(alloc, s, number, names.as_slice(), &place)?;
    Ok(of_status(Status::SUCCESS))
}
