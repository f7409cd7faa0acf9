//! Create, with the lease and the durable open that it may want. As much is granted of these as may be.

ghost use Rattle.std.specs.Prelude.{◌≡◌, ◌+◌, IfOk, OnOk, OnErr, None, option_map};
ghost use Rattle.share_state.specs.State.{has};
ghost use Rattle.share_state.specs.Reply.{attributes_of, granted_reply};
ghost use Rattle.share_state.specs.Leases.{granting_of, with_granting};
ghost use Rattle.share_state.specs.Create.{is_disposition, overwrites, is_within, takes_part, is_unshared, has_unshared, refusal_of_key, refusal_of_missing, refusal_of_kind, refusal_of_read_only, refusal_of_use, refusal_of_there, open_with, with_open, with_new, made, opened, create_at, create_of};
ghost use Rattle.share_state.specs.declared.place.Place.TheVariants.{Missing, There};

use crate::granting::{grant, granting_of, is_elsewhere};
use share_names::{are_names, components, place_of};
use share_state::{
    Entry, Found, Granting, Node, Open, Place, Rep, RepBody, Share, Wanted, Who, has, has_entries,
    is_directory, is_going, is_pending, is_read_only, of_status, size_of,
};
use smb_base::{Bytes, Fid, NoMemory, Status, Units};
use std::alloc::Global;

const OPEN: u32 = 1;

const CREATE: u32 = 2;

const OVERWRITE: u32 = 4;

const DIRECTORY_FILE: u32 = 1;

const NON_DIRECTORY_FILE: u32 = 0x40;

const DELETE_ON_CLOSE: u32 = 0x1000;

const READONLY: u32 = 1;

const READ_DATA: u32 = 1;

const WRITE_OR_APPEND: u32 = 6;

const DELETE: u32 = 0x10000;

const TAKES_PART: u32 = 0x10007;

// The disposition is one of the five.
pub(crate) fn is_disposition(disposition: u32) -> bool
    ensures { result ≡ is_disposition disposition }
{
    1 <= disposition && disposition <= 5
}

// The disposition takes the bytes away of what is there.
pub(crate) fn overwrites(disposition: u32) -> bool
    ensures { result ≡ overwrites disposition }
{
    OVERWRITE <= disposition
}

// What an open does is within what another one shares.
fn is_within(access: u32, share: u32) -> bool
    ensures { result ≡ is_within access share }
{
    (!has(access, READ_DATA) || has(share, 1))
        && (!has(access, WRITE_OR_APPEND) || has(share, 2))
        && (!has(access, DELETE) || has(share, 4))
}

// The access takes part in sharing.
fn takes_part(access: u32) -> bool
    ensures { result ≡ takes_part access }
{
    has(access, TAKES_PART)
}

// What is wanted does not go together with an open of the same node.
pub(crate) fn is_unshared(w: Wanted, other: &Open) -> bool
    ensures { result ≡ is_unshared w other.now }
{
    takes_part(w.access)
        && takes_part(other.access)
        && !(is_within(w.access, other.share) && is_within(other.access, w.share))
}

// Some open of the node does not go together with what is wanted.
pub(crate) fn has_unshared(opens: &[Open], node: u64, w: Wanted) -> bool
    ensures { result ≡ has_unshared opens.now node w }
{
    opens
        .iter()
        .any(|open| open.node == node && is_unshared(w, open))
}

// Why a Create is refused whose key stands on another node.
pub(crate) fn refusal_of_key(s: &Share, who: Who, w: Wanted, node: u64) -> Option<Status>
    ensures { option_map (λ f. f.0) result ≡ refusal_of_key s.now who w node }
{
    if is_elsewhere(s.leases.as_slice(), who, w.lease, node) {
        return Some(Status::INVALID_PARAMETER);
    }
    None
}

// Why a Create is refused whose name is missing.
fn refusal_of_missing(s: &Share, who: Who, w: Wanted, directory: u64) -> Option<Status>
    ensures { option_map (λ f. f.0) result ≡ refusal_of_missing s.now who w directory }
{
    if w.disposition == OPEN || w.disposition == OVERWRITE {
        return Some(Status::OBJECT_NAME_NOT_FOUND);
    }
    if is_going(s.entries.as_slice(), directory) {
        return Some(Status::DELETE_PENDING);
    }
    refusal_of_key(s, who, w, 0)
}

// Why a Create is refused for the kind of what is there.
pub(crate) fn refusal_of_kind(s: &Share, w: Wanted, node: u64) -> Option<Status>
    ensures { option_map (λ f. f.0) result ≡ refusal_of_kind s.now w node }
{
    let dir = is_directory(s.nodes.as_slice(), node);
    if has(w.options, DIRECTORY_FILE) && !dir {
        return Some(Status::NOT_A_DIRECTORY);
    }
    if has(w.options, NON_DIRECTORY_FILE) && dir {
        return Some(Status::FILE_IS_A_DIRECTORY);
    }
    if overwrites(w.disposition) && dir {
        return Some(Status::INVALID_PARAMETER);
    }
    None
}

// Why a Create is refused since what is there is read-only.
pub(crate) fn refusal_of_read_only(s: &Share, w: Wanted, node: u64) -> Option<Status>
    ensures { option_map (λ f. f.0) result ≡ refusal_of_read_only s.now w node }
{
    if !is_read_only(s.nodes.as_slice(), node) {
        return None;
    }
    if !is_directory(s.nodes.as_slice(), node)
        && (has(w.access, WRITE_OR_APPEND) || overwrites(w.disposition))
    {
        return Some(Status::ACCESS_DENIED);
    }
    if has(w.options, DELETE_ON_CLOSE) {
        return Some(Status::CANNOT_DELETE);
    }
    None
}

// Why a Create is refused since others have it open, or since it has entries and is to go.
fn refusal_of_use(s: &Share, w: Wanted, node: u64) -> Option<Status>
    ensures { option_map (λ f. f.0) result ≡ refusal_of_use s.now w node }
{
    if has_unshared(s.opens.as_slice(), node, w) {
        return Some(Status::SHARING_VIOLATION);
    }
    if has(w.options, DELETE_ON_CLOSE)
        && is_directory(s.nodes.as_slice(), node)
        && has_entries(s.entries.as_slice(), node)
    {
        return Some(Status::DIRECTORY_NOT_EMPTY);
    }
    None
}

// Why a Create is refused whose name is there.
fn refusal_of_there(s: &Share, who: Who, w: Wanted, f: Found) -> Option<Status>
    ensures { option_map (λ f. f.0) result ≡ refusal_of_there s.now who w f }
{
    if is_pending(s.entries.as_slice(), f.entry) {
        return Some(Status::DELETE_PENDING);
    }
    if w.disposition == CREATE {
        return Some(Status::OBJECT_NAME_COLLISION);
    }
    if let Some(status) = refusal_of_kind(s, w, f.node) {
        return Some(status);
    }
    if let Some(status) = refusal_of_read_only(s, w, f.node) {
        return Some(status);
    }
    if let Some(status) = refusal_of_key(s, who, w, f.node) {
        return Some(status);
    }
    refusal_of_use(s, w, f.node)
}

// The attributes that a reply shows.
fn attributes_of(dir: bool, read_only: bool) -> u32
    ensures { result ≡ attributes_of dir read_only }
{
    match (dir, read_only) {
        (true, true) => 0x11,
        (true, false) => 0x10,
        (false, true) => 1,
        (false, false) => 0x80,
    }
}

// The reply to a Create that was done and granted so much.
fn granted_reply(g: Granting, number: u64, action: u32, size: u64, attributes: u32) -> Rep
    ensures { result ≡ granted_reply g number action size attributes }
{
    Rep {
        status: Status::SUCCESS,
        body: RepBody::Opened {
            fid: Fid {
                persistent: number,
                volatile: number,
            },
            action,
            size,
            attributes,
            lease: g.state,
            durable: g.durable,
        },
    }
}

// The next number; where none is left there is no memory for more either.
fn next(made: u64) -> Result<u64, NoMemory>
    ensures { IfOk result (λ n. n ≡ made + 1) }
{
    made.checked_add(1).ok_or(NoMemory)
}

// The open that a Create makes.
fn new_open(number: u64, who: Who, w: Wanted, g: Granting, node: u64, entry: u64) -> Open
    ensures { result ≡ open_with number who w g node entry }
{
    Open {
        number,
        who,
        node,
        entry,
        access: w.access,
        share: w.share,
        key: g.key,
        durable: g.durable,
        connected: true,
        delete_on_close: has(w.options, DELETE_ON_CLOSE),
        snapshot: None,
    }
}

// Adds an open. For want of memory nothing is changed.
fn add_open(s: &mut Share, new: Open) -> Result<(), NoMemory>
    ensures ok { OnOk result (s.new ≡ with_open new s.old) }
    ensures err { OnErr result (s.new ≡ s.old) }
{
    let made = next(s.opens_made)?;
    s.opens.push(new)?;
    s.opens_made = made;
    Ok(())
}

// Adds a new and empty node under a name in a directory. For want of memory nothing is changed.
fn add_new(
    alloc: Global,
    s: &mut Share,
    directory: u64,
    name: Units,
    dir: bool,
    read_only: bool,
) -> Result<(), NoMemory>
    ensures ok { OnOk result (s.new ≡ with_new directory name dir read_only s.old) }
    ensures err { OnErr result (s.new ≡ s.old) }
{
    let node = next(s.nodes_made)?;
    let entry = next(s.entries_made)?;
    s.nodes.push(Node {
        number: node,
        dir,
        bytes: Bytes::new(alloc),
        read_only,
    })?;
    match s.entries.push(Entry {
        number: entry,
        directory,
        name,
        node,
        pending: false,
    }) {
        Ok(()) => {
            s.nodes_made = node;
            s.entries_made = entry;
            Ok(())
        }
        Err(NoMemory) => {
            s.nodes.drop_last();
            Err(NoMemory)
        }
    }
}

// Adds a new node as above, with what is granted on it. For want of memory nothing is changed.
fn add_granted(
    alloc: Global,
    s: &mut Share,
    directory: u64,
    name: Units,
    w: Wanted,
    who: Who,
    g: Granting,
) -> Result<(), NoMemory>
    ensures ok { OnOk result (s.new ≡ with_granting who g (s.old.nodes_made + 1) (with_new directory name (has w.options 1) (has w.attributes 1) s.old)) }
    ensures err { OnErr result (s.new ≡ s.old) }
{
    let (nodes, entries) = (s.nodes_made, s.entries_made);
    let node = next(nodes)?;
    let dir = has(w.options, DIRECTORY_FILE);
    add_new(alloc, s, directory, name, dir, has(w.attributes, READONLY))?;
    match grant(s, who, g, node) {
        Ok(()) => Ok(()),
        Err(NoMemory) => {
            s.nodes.drop_last();
            s.entries.drop_last();
            s.nodes_made = nodes;
            s.entries_made = entries;
            Err(NoMemory)
        }
    }
}

// A Create that makes a file or a directory and opens it. For want of memory nothing is changed.
fn make(
    alloc: Global,
    s: &mut Share,
    who: Who,
    w: Wanted,
    g: Granting,
    directory: u64,
    name: Units,
) -> Result<Rep, NoMemory>
    ensures ok { IfOk result (λ r. made s.old who w g directory name ≡ (r, s.new)) }
    ensures err { OnErr result (s.new ≡ s.old) }
{
    let number = next(s.opens_made)?;
    let (node, entry) = (next(s.nodes_made)?, next(s.entries_made)?);
    let attributes = attributes_of(has(w.options, DIRECTORY_FILE), has(w.attributes, READONLY));
    add_open(s, new_open(number, who, w, g, node, entry))?;
    match add_granted(alloc, s, directory, name, w, who, g) {
        Ok(()) => Ok(granted_reply(g, number, 2, 0, attributes)),
        Err(NoMemory) => {
            s.opens.drop_last();
            s.opens_made = number - 1;
            Err(NoMemory)
        }
    }
}

// Adds an open, with what is granted on its node. For want of memory nothing is changed.
fn add_open_granted(
    s: &mut Share,
    new: Open,
    who: Who,
    g: Granting,
    node: u64,
) -> Result<(), NoMemory>
    ensures ok { OnOk result (s.new ≡ with_granting who g node (with_open new s.old)) }
    ensures err { OnErr result (s.new ≡ s.old) }
{
    let made = s.opens_made;
    add_open(s, new)?;
    match grant(s, who, g, node) {
        Ok(()) => Ok(()),
        Err(NoMemory) => {
            s.opens.drop_last();
            s.opens_made = made;
            Err(NoMemory)
        }
    }
}

// A Create that opens what is there. For want of memory nothing is changed.
fn open_there(
    alloc: Global,
    s: &mut Share,
    who: Who,
    w: Wanted,
    g: Granting,
    f: Found,
) -> Result<Rep, NoMemory>
    ensures ok { IfOk result (λ r. opened s.old who w g f ≡ (r, s.new)) }
    ensures err { OnErr result (s.new ≡ s.old) }
{
    let number = next(s.opens_made)?;
    let dir = is_directory(s.nodes.as_slice(), f.node);
    let read_only = is_read_only(s.nodes.as_slice(), f.node);
    let attributes = attributes_of(dir, read_only);
    let size = size_of(s.nodes.as_slice(), f.node);
    add_open_granted(
        s,
        new_open(number, who, w, g, f.node, f.entry),
        who,
        g,
        f.node,
    )?;
    if overwrites(w.disposition) {
        s.nodes.empty(alloc, f.node);
        return Ok(granted_reply(g, number, 3, 0, attributes));
    }
    Ok(granted_reply(g, number, 1, size, attributes))
}

// A Create of what is missing in a directory.
fn create_missing(
    alloc: Global,
    s: &mut Share,
    who: Who,
    w: Wanted,
    directory: u64,
    name: Units,
) -> Result<Rep, NoMemory>
    ensures ok { IfOk result (λ r. create_at None s.old who w (Missing directory name) ≡ (r, s.new)) }
    ensures err { OnErr result (s.new ≡ s.old) }
{
    if let Some(status) = refusal_of_missing(s, who, w, directory) {
        return Ok(of_status(status));
    }
    let node = next(s.nodes_made)?;
    let g = granting_of(s, who, w, node);
    make(alloc, s, who, w, g, directory, name)
}

// A Create of what is there.
fn create_there(
    alloc: Global,
    s: &mut Share,
    who: Who,
    w: Wanted,
    f: Found,
) -> Result<Rep, NoMemory>
    ensures ok { IfOk result (λ r. create_at None s.old who w (There f) ≡ (r, s.new)) }
    ensures err { OnErr result (s.new ≡ s.old) }
{
    if let Some(status) = refusal_of_there(s, who, w, f) {
        return Ok(of_status(status));
    }
    let g = granting_of(s, who, w, f.node);
    open_there(alloc, s, who, w, g, f)
}

// A Create at the place where its path leads.
fn create_at(
    alloc: Global,
    s: &mut Share,
    who: Who,
    w: Wanted,
    place: Place,
) -> Result<Rep, NoMemory>
    ensures ok { IfOk result (λ r. create_at None s.old who w place ≡ (r, s.new)) }
    ensures err { OnErr result (s.new ≡ s.old) }
{
    match place {
        Place::NoPath => Ok(of_status(Status::OBJECT_PATH_NOT_FOUND)),
        Place::Missing(directory, name) => create_missing(alloc, s, who, w, directory, name),
        Place::There(found) => create_there(alloc, s, who, w, found),
    }
}

// A Create.
pub(crate) fn create(
    alloc: Global,
    s: &mut Share,
    who: Who,
    path: &Units,
    w: Wanted,
) -> Result<Rep, NoMemory>
    ensures ok { IfOk result (λ r. create_of None s.old who path.now w ≡ (r, s.new)) }
    ensures err { OnErr result (s.new ≡ s.old) }
{
    if !is_disposition(w.disposition) {
        return Ok(of_status(Status::INVALID_PARAMETER));
    }
    let names = components(alloc, path.as_slice())?;
    if !are_names(names.as_slice()) {
        return Ok(of_status(Status::OBJECT_NAME_INVALID));
    }
    let place = place_of(alloc, s, names.as_slice())?;
    create_at(alloc, s, who, w, place)
}
