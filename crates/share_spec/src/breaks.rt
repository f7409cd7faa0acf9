//! The breaks that a request has to wait for.

ghost use Rattle.std.specs.Prelude.{◌≡◌, true, IfOk};
ghost use Rattle.share_state.specs.Built.{is_built};
ghost use Rattle.share_state.specs.Breaks.{bits_of_create, gone_with, gone_from, is_own, needs_on, is_refused_early, needs_at, needs_of_create, needs_of};

use crate::create::{
    has_unshared, is_disposition, overwrites, refusal_of_key, refusal_of_kind, refusal_of_read_only,
};
use crate::needs::{needs_of_data, needs_of_mark, needs_of_rename};
use share_names::{are_names, components, is_beneath, place_of};
use share_state::{
    BreakNeeds, Found, Lease, Place, Req, Share, Wanted, Who, bits, has, holds, is_directory,
    is_lease_of, is_pending, lowered,
};
use smb_base::{Key, NoMemory, Units};
use std::alloc::Global;

const CREATE: u32 = 2;

const DELETE_ON_CLOSE: u32 = 0x1000;

const DATA: u32 = 7;

// The bit W of a lease.
const WRITING: u8 = 4;

// The bits R and W of a lease.
const READING_AND_WRITING: u8 = 5;

// The bits of other leases that a Create of what is there has to see gone.
fn bits_of_create(s: &Share, w: Wanted, node: u64) -> u8
    ensures { result ≡ bits_of_create s.now w node }
{
    bits(
        overwrites(w.disposition),
        overwrites(w.disposition)
            || has(w.options, DELETE_ON_CLOSE)
            || has_unshared(s.opens.as_slice(), node, w),
        overwrites(w.disposition) || has(w.access, DATA),
    )
}

// The bits that a lease has to lose where a node is to be deleted or renamed.
pub(crate) fn gone_with(s: &Share, node: u64, lease: &Lease) -> u8
    ensures { result ≡ gone_with s.now node lease.now }
{
    let entries = s.entries.as_slice();
    if lease.node == node
        || !is_directory(s.nodes.as_slice(), lease.node)
            && is_beneath(entries, entries, node, lease.node)
    {
        return 2;
    }
    0
}

// The bits that a lease has to lose for a Create of what is there.
fn gone_from(s: &Share, w: Wanted, node: u64, lease: &Lease) -> u8
    ensures { result ≡ gone_from s.now w node lease.now }
{
    if lease.node == node {
        return bits_of_create(s, w, node);
    }
    if has(w.options, DELETE_ON_CLOSE) {
        return gone_with(s, node, lease);
    }
    0
}

// The lease is the one that a Create has the key of.
fn is_own(who: Who, wish: Option<(Key, u8)>, lease: &Lease) -> bool
    ensures { result ≡ is_own who wish lease.now }
{
    match wish {
        Some((key, _)) => is_lease_of(who, key, lease),
        None => false,
    }
}

// The breaks of a Create of what is there.
fn needs_on(
    alloc: Global,
    s: &Share,
    who: Who,
    w: Wanted,
    node: u64,
) -> Result<BreakNeeds, NoMemory>
    ensures { IfOk result (λ needs. needs ≡ needs_on s.now who w node) }
{
    let mut needs = BreakNeeds::new(alloc);
    for lease in s.leases.as_slice() {
        let gone = gone_from(s, w, node, lease);
        if !is_own(who, w.lease, lease) && holds(lease.state, gone) {
            needs.push((lease.key, lowered(lease.state, gone)))?;
        }
    }
    Ok(needs)
}

// The breaks of a Create at the place where its path leads.
fn needs_at(
    alloc: Global,
    s: &Share,
    who: Who,
    w: Wanted,
    place: Place,
) -> Result<BreakNeeds, NoMemory>
    ensures { IfOk result (λ needs. needs ≡ needs_at s.now who w place) }
{
    let Place::There(found) = place else {
        return Ok(BreakNeeds::new(alloc));
    };
    if needs_none(s, who, w, found) {
        return Ok(BreakNeeds::new(alloc));
    }
    needs_on(alloc, s, who, w, found.node)
}

// A Create of what is there is refused before it comes to what others have open.
fn needs_none(s: &Share, who: Who, w: Wanted, f: Found) -> bool
    ensures { result ≡ is_refused_early s.now who w f }
{
    is_pending(s.entries.as_slice(), f.entry)
        || w.disposition == CREATE
        || refusal_of_kind(s, w, f.node).is_some()
        || refusal_of_read_only(s, w, f.node).is_some()
        || refusal_of_key(s, who, w, f.node).is_some()
}

// The breaks of a Create.
fn needs_of_create(
    alloc: Global,
    s: &Share,
    who: Who,
    path: &Units,
    w: Wanted,
) -> Result<BreakNeeds, NoMemory>
    ensures { IfOk result (λ needs. needs ≡ needs_of_create s.now who path.now w) }
{
    if !is_disposition(w.disposition) {
        return Ok(BreakNeeds::new(alloc));
    }
    let names = components(alloc, path.as_slice())?;
    if !are_names(names.as_slice()) {
        return Ok(BreakNeeds::new(alloc));
    }
    let place = place_of(alloc, s, names.as_slice())?;
    needs_at(alloc, s, who, w, place)
}

/// The breaks that a request of a client has to wait for: the key of each lease in the way, and the state that it has to be broken
/// to, whether that break was asked already or not. The request is one that `Req::is_built` tells of. It fails only for want of
/// memory.
pub fn conflicts(alloc: Global, s: &Share, who: Who, r: &Req) -> Result<BreakNeeds, NoMemory>
    requires built { is_built r.now ≡ true }
    ensures { IfOk result (λ needs. needs ≡ needs_of s.now who r.now) }
{
    match r {
        Req::Create {
            path,
            access,
            share,
            disposition,
            options,
            attributes,
            lease,
            durable,
        } => {
            let wanted = Wanted {
                access: *access,
                share: *share,
                disposition: *disposition,
                options: *options,
                attributes: *attributes,
                lease: *lease,
                durable: *durable,
            };
            needs_of_create(alloc, s, who, path, wanted)
        }
        Req::Read { fid, .. } => needs_of_data(alloc, s, who, *fid, WRITING),
        Req::Write { fid, .. } => needs_of_data(alloc, s, who, *fid, READING_AND_WRITING),
        Req::SetEnd { fid, .. } => needs_of_data(alloc, s, who, *fid, READING_AND_WRITING),
        Req::Lock { fid, .. } => needs_of_data(alloc, s, who, *fid, READING_AND_WRITING),
        Req::SetPending { fid, on } => needs_of_mark(alloc, s, who, *fid, *on),
        Req::Rename { fid, replace, path } => {
            needs_of_rename(alloc, s, who, *fid, *replace, path)
        }
        _ => Ok(BreakNeeds::new(alloc)),
    }
}
