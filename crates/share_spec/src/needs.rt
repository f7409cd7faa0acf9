//! The breaks that a request on an open has to wait for.

ghost use Rattle.std.specs.Prelude.{◌≡◌, IfOk};
ghost use Rattle.share_state.specs.Close.{open_of};
ghost use Rattle.share_state.specs.Breaks.{is_of_open, needs_but_own, needs_by, gone_on, gone_with, gone_with_both, needs_of};
ghost use Rattle.share_state.specs.declared.request.Req.TheVariants as req;
ghost use Rattle.share_spec.specs.Gone.{gone_by};

use crate::breaks::gone_with;
use share_names::{components, replaced_by};
use share_state::{BreakNeeds, Lease, Open, Share, Who, holds, is_key_of, lowered, open_of};
use smb_base::{Fid, NoMemory, Units};
use std::alloc::Global;

// What other leases have to lose.
#[derive(Clone, Copy)]
enum Gone {
    // Those of a node these bits.
    Bits(u64, u8),
    // What stands in the way of the end of a node.
    Deleted(u64),
    // What stands in the way of a new name of the first node, which replaces the second.
    Renamed(u64, u64),
}

// The lease is the one that an open has the key of.
fn is_of_open(one: &Open, lease: &Lease) -> bool
    ensures { result ≡ is_of_open one.now lease.now }
{
    lease.who.0 == one.who.0 && is_key_of(lease.key, &one.key)
}

// The bits that a lease has to lose.
fn gone_by(s: &Share, gone: Gone, lease: &Lease) -> u8
    ensures { result ≡ gone_by s.now gone lease.now }
{
    match gone {
        Gone::Bits(node, bits) => { if lease.node == node { bits } else { 0 } }
        Gone::Deleted(node) => gone_with(s, node, lease),
        Gone::Renamed(node, replaced) => {
            if gone_with(s, replaced, lease) == 0 {
                gone_with(s, node, lease)
            } else {
                2
            }
        }
    }
}

// The breaks of a request on an open: other leases lose so much.
fn needs_but_own(alloc: Global, s: &Share, one: &Open, gone: Gone) -> Result<BreakNeeds, NoMemory>
    ensures { IfOk result (λ needs. needs ≡ needs_but_own s.now one.now (gone_by s.now gone)) }
{
    let mut needs = BreakNeeds::new(alloc);
    for lease in s.leases.as_slice() {
        let bits = gone_by(s, gone, lease);
        if !is_of_open(one, lease) && holds(lease.state, bits) {
            needs.push((lease.key, lowered(lease.state, bits)))?;
        }
    }
    Ok(needs)
}

// The breaks of a request on the bytes of a file: these bits.
pub(crate) fn needs_of_data(
    alloc: Global,
    s: &Share,
    who: Who,
    fid: Fid,
    bits: u8,
) -> Result<BreakNeeds, NoMemory>
    ensures { IfOk result (λ needs. needs ≡ needs_by s.now (open_of s.now.opens who fid) (λ o. gone_on o.node bits)) }
{
    match open_of(s.opens.as_slice(), who, fid) {
        Some(one) => needs_but_own(alloc, s, one, Gone::Bits(one.node, bits)),
        None => Ok(BreakNeeds::new(alloc)),
    }
}

// The breaks of a mark.
pub(crate) fn needs_of_mark(
    alloc: Global,
    s: &Share,
    who: Who,
    fid: Fid,
    on: bool,
) -> Result<BreakNeeds, NoMemory>
    ensures { IfOk result (λ needs. needs ≡ needs_of s.now who (req.SetPending fid on)) }
{
    if !on {
        return Ok(BreakNeeds::new(alloc));
    }
    match open_of(s.opens.as_slice(), who, fid) {
        Some(one) => needs_but_own(alloc, s, one, Gone::Deleted(one.node)),
        None => Ok(BreakNeeds::new(alloc)),
    }
}

// The breaks of a Rename.
pub(crate) fn needs_of_rename(
    alloc: Global,
    s: &Share,
    who: Who,
    fid: Fid,
    replace: bool,
    path: &Units,
) -> Result<BreakNeeds, NoMemory>
    ensures { IfOk result (λ needs. needs ≡ needs_of s.now who (req.Rename fid replace path.now)) }
{
    let Some(one) = open_of(s.opens.as_slice(), who, fid) else {
        return Ok(BreakNeeds::new(alloc));
    };
    let names = components(alloc, path.as_slice())?;
    let replaced = replaced_by(alloc, s, replace, one.entry, names.as_slice())?;
    needs_but_own(alloc, s, one, Gone::Renamed(one.node, replaced))
}
