//! LinkTo: a file gets one more entry.

ghost use Rattle.std.specs.Prelude.{◌≡◌, ◌+◌, IfOk, OnOk, OnErr, option_map};
ghost use Rattle.share_state.specs.NewNames.{refusal_of_link_at, refusal_of_link, with_link, link_of};
ghost use Rattle.share_state.specs.Place.{place_of};

use crate::names::components;
use crate::place::place_of;
use crate::target::{directory_at, entry_at, last_name, refusal_of_path};
use share_state::{
    Entry, Open, Place, Rep, Share, Who, is_directory, is_going, of_status, open_of,
};
use smb_base::{Fid, NoMemory, Status, Units};
use std::alloc::Global;

// Why a place cannot be that of a link.
fn refusal_of_link_at(s: &Share, replace: bool, place: &Place) -> Option<Status>
    ensures { option_map (λ f. f.0) result ≡ refusal_of_link_at s.now replace place.now }
{
    if is_going(s.entries.as_slice(), directory_at(s, place)) {
        return Some(Status::DELETE_PENDING);
    }
    if entry_at(place) != 0 {
        return Some(Status::OBJECT_NAME_COLLISION);
    }
    if replace {
        return Some(Status::NOT_SUPPORTED);
    }
    None
}

// Why a LinkTo is refused, given where its path leads.
fn refusal_of_link(
    s: &Share,
    open: &Open,
    replace: bool,
    names: &[Units],
    place: &Place,
) -> Option<Status>
    requires led { place.now ≡ place_of s.now names.now }
    ensures { option_map (λ f. f.0) result ≡ refusal_of_link s.now «open».now replace names.now }
{
    if is_directory(s.nodes.as_slice(), open.node) {
        return Some(Status::FILE_IS_A_DIRECTORY);
    }
    if let Some(status) = refusal_of_path(s, names, place) {
        return Some(status);
    }
    refusal_of_link_at(s, replace, place)
}

// The number of the next entry; where none is left there is no memory for more either.
fn next(made: u64) -> Result<u64, NoMemory>
    ensures { IfOk result (λ n. n ≡ made + 1) }
{
    made.checked_add(1).ok_or(NoMemory)
}

// Adds an entry of a node. For want of memory nothing is changed.
fn add_entry(s: &mut Share, node: u64, directory: u64, name: Units) -> Result<(), NoMemory>
    ensures ok { OnOk result (s.new ≡ with_link s.old node directory name) }
    ensures err { OnErr result (s.new ≡ s.old) }
{
    let number = next(s.entries_made)?;
    s.entries.push(Entry {
        number,
        directory,
        name,
        node,
        pending: false,
    })?;
    s.entries_made = number;
    Ok(())
}

/// A LinkTo: the file of an open gets one more entry, of the name that a path says. The reply is FILE_CLOSED, or the first of:
/// FILE_IS_A_DIRECTORY; OBJECT_NAME_INVALID; OBJECT_PATH_NOT_FOUND; OBJECT_NAME_COLLISION for the root's path; DELETE_PENDING where the
/// new directory is to go; OBJECT_NAME_COLLISION where the name is there; NOT_SUPPORTED with `replace`. A refused LinkTo changes
/// nothing (MS-FSA 2.1.5.15.6). It fails only for want of memory, and then changes nothing.
pub fn link_to(
    alloc: Global,
    s: &mut Share,
    who: Who,
    fid: Fid,
    replace: bool,
    path: &Units,
) -> Result<Rep, NoMemory>
    ensures ok { IfOk result (λ rep. link_of s.old who fid replace path.now ≡ (rep, s.new)) }
    ensures err { OnErr result (s.new ≡ s.old) }
{
    let Some(open) = open_of(s.opens.as_slice(), who, fid) else {
        return Ok(of_status(Status::FILE_CLOSED));
    };
    let names = components(alloc, path.as_slice())?;
    let place = place_of(alloc, s, names.as_slice())?;
    if let Some(status) = refusal_of_link(s, open, replace, names.as_slice(), &place) {
        return Ok(of_status(status));
    }
    let name = last_name(alloc, names.as_slice())?;
    let (node, directory) = (open.node, directory_at(s, &place));
    add_entry(s, node, directory, name)?;
    Ok(of_status(Status::SUCCESS))
}
