//! Where a path leads.

ghost use Rattle.std.specs.Prelude.{◌≡◌, IfOk};
ghost use Rattle.share_state.specs.Place.{entry_named, root, below, place_of};

use crate::names::same_name;
use share_state::{Entry, Found, Place, Share, is_directory};
use smb_base::{NoMemory, Units};
use std::alloc::Global;

/// The entry of this name in a directory.
pub fn entry_named(fold: bool, entries: &[Entry], directory: u64, name: &[u16]) -> Option<Found>
    ensures { result ≡ entry_named fold entries.now directory name.now }
{
    for entry in entries {
        if entry.directory == directory && same_name(fold, entry.name.as_slice(), name) {
            return Some(Found {
                node: entry.node,
                entry: entry.number,
            });
        }
    }
    None
}

// One component further.
fn below(alloc: Global, s: &Share, place: Place, name: &Units) -> Result<Place, NoMemory>
    ensures { IfOk result (λ p. p ≡ below s.now place name.now) }
{
    let Place::There(at) = place else {
        return Ok(Place::NoPath);
    };
    if !is_directory(s.nodes.as_slice(), at.node) {
        return Ok(Place::NoPath);
    }
    match entry_named(s.fold, s.entries.as_slice(), at.node, name.as_slice()) {
        Some(found) => Ok(Place::There(found)),
        None => Ok(Place::Missing(at.node, Units::of(alloc, name.as_slice())?)),
    }
}

/// Where these components lead.
pub fn place_of(alloc: Global, s: &Share, names: &[Units]) -> Result<Place, NoMemory>
    ensures { IfOk result (λ p. p ≡ place_of s.now names.now) }
{
    let mut place = Place::There(Found { node: 1, entry: 0 });
    for name in names {
        place = below(alloc, s, place, name)?;
    }
    Ok(place)
}
