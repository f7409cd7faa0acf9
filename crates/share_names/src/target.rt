//! Where a new name would be, and what is in its way.

ghost use Rattle.std.specs.Prelude.{◌≡◌, IfOk, option_map};
ghost use Rattle.share_state.specs.Breaks.{replaced_at, replaced_by};
ghost use Rattle.share_state.specs.NewNames.{last_name, directory_of, directory_at, entry_at, refusal_of_place, refusal_of_path};
ghost use Rattle.share_state.specs.Place.{place_of};

use crate::names::are_names;
use crate::place::place_of;
use share_state::{Entry, Place, Share};
use smb_base::{NoMemory, Status, Units};
use std::alloc::Global;

// The last component of a path.
pub(crate) fn last_name(alloc: Global, names: &[Units]) -> Result<Units, NoMemory>
    ensures { IfOk result (λ name. name ≡ last_name names.now) }
{
    match names.last() {
        Some(name) => Units::of(alloc, name.as_slice()),
        None => Ok(Units::new(alloc)),
    }
}

// The directory that has this entry.
fn directory_of(entries: &[Entry], number: u64) -> u64
    ensures { result ≡ directory_of entries.now number }
{
    for entry in entries {
        if entry.number == number {
            return entry.directory;
        }
    }
    0
}

// The directory that a new name would be in.
pub(crate) fn directory_at(s: &Share, place: &Place) -> u64
    ensures { result ≡ directory_at s.now place.now }
{
    match place {
        Place::NoPath => 0,
        Place::Missing(directory, _) => *directory,
        Place::There(found) => directory_of(s.entries.as_slice(), found.entry),
    }
}

// The entry that has the new name already.
pub(crate) fn entry_at(place: &Place) -> u64
    ensures { result ≡ entry_at place.now }
{
    match place {
        Place::There(found) => found.entry,
        _ => 0,
    }
}

// Why a place cannot be that of a new name.
fn refusal_of_place(place: &Place) -> Option<Status>
    ensures { option_map (λ f. f.0) result ≡ refusal_of_place place.now }
{
    match place {
        Place::NoPath => Some(Status::OBJECT_PATH_NOT_FOUND),
        Place::There(found) if found.entry == 0 => Some(Status::OBJECT_NAME_COLLISION),
        _ => None,
    }
}

// Why a path cannot be a new name, given where it leads.
pub(crate) fn refusal_of_path(s: &Share, names: &[Units], place: &Place) -> Option<Status>
    requires led { place.now ≡ place_of s.now names.now }
    ensures { option_map (λ f. f.0) result ≡ refusal_of_path s.now names.now }
{
    if !are_names(names) {
        return Some(Status::OBJECT_NAME_INVALID);
    }
    refusal_of_place(place)
}

// The node that a Rename to this place would replace.
fn replaced_at(replace: bool, entry: u64, place: &Place) -> u64
    ensures { result ≡ replaced_at replace entry place.now }
{
    match place {
        Place::There(found) if replace && found.entry != entry && found.entry != 0 => found.node,
        _ => 0,
    }
}

/// The node that a Rename of an entry to the path with these components would replace: that of another entry, where replacing is
/// asked; 0 where there is none. It fails only for want of memory.
pub fn replaced_by(
    alloc: Global,
    s: &Share,
    replace: bool,
    entry: u64,
    names: &[Units],
) -> Result<u64, NoMemory>
    ensures { IfOk result (λ node. node ≡ replaced_by s.now replace entry names.now) }
{
    if !are_names(names) {
        return Ok(0);
    }
    let place = place_of(alloc, s, names)?;
    Ok(replaced_at(replace, entry, &place))
}
