//! What a Create is granted: a lease, and whether its open is durable.

ghost use Rattle.std.specs.Prelude.{◌≡◌, OnOk, OnErr, None};
ghost use Rattle.share_state.specs.Leases.{has_lock, has_elsewhere, is_elsewhere, is_of_another, is_locked, is_to_go, is_used, free_bits, raised, greatest, greatest_on, no_granting, granting_with, granting_of, with_granting};

use share_state::{
    Granting, Lease, Lock, Open, Share, Wanted, Who, bits, has, holds, is_key_of, is_lease_of,
    is_taken, lease_of, lowered,
};
use smb_base::{Key, NoMemory};

const DATA: u32 = 7;

// A lease of the client under the key is on another node.
fn has_elsewhere(leases: &[Lease], who: Who, key: Key, node: u64) -> bool
    ensures { result ≡ has_elsewhere leases.now who key node }
{
    leases
        .iter()
        .any(|lease| is_lease_of(who, key, lease) && lease.node != node)
}

// The key that is wanted stands on another node.
pub(crate) fn is_elsewhere(leases: &[Lease], who: Who, wish: Option<(Key, u8)>, node: u64) -> bool
    ensures { result ≡ is_elsewhere leases.now who wish node }
{
    match wish {
        Some((key, _)) => has_elsewhere(leases, who, key, node),
        None => false,
    }
}

// An open of the node that is not this client's under this key.
fn is_of_another(who: Who, key: Key, node: u64, one: &Open) -> bool
    ensures { result ≡ is_of_another who key node one.now }
{
    one.node == node && !(one.who.0 == who.0 && is_key_of(key, &one.key))
}

// An open has a locked range.
fn has_lock(locks: &[Lock], number: u64) -> bool
    ensures { result ≡ has_lock locks.now number }
{
    locks.iter().any(|lock| lock.holder == number)
}

// An open under another key holds a locked range of the node.
fn is_locked(s: &Share, who: Who, key: Key, node: u64) -> bool
    ensures { result ≡ is_locked s.now who key node }
{
    let locks = s.locks.as_slice();
    s.opens.as_slice().iter().any(|open| is_of_another(who, key, node, open)
        && has_lock(locks, open.number))
}

// One is to delete it.
fn is_to_go(s: &Share, who: Who, key: Key, node: u64) -> bool
    ensures { result ≡ is_to_go s.now who key node }
{
    s.opens.as_slice().iter().any(|open| is_of_another(who, key, node, open)
        && open.delete_on_close)
}

// One may read it, write to it or append to it.
fn is_used(s: &Share, who: Who, key: Key, node: u64) -> bool
    ensures { result ≡ is_used s.now who key node }
{
    s.opens.as_slice().iter().any(|open| is_of_another(who, key, node, open)
        && has(open.access, DATA))
}

// The bits of a lease that these opens leave free.
fn free_bits(s: &Share, who: Who, key: Key, node: u64) -> u8
    ensures { result ≡ free_bits s.now who key node }
{
    bits(
        !is_locked(s, who, key, node),
        !is_to_go(s, who, key, node),
        !is_used(s, who, key, node),
    )
}

// What stands, with the wanted bits among those that are free.
fn raised(standing: u8, wanted: u8, free: u8) -> u8
    ensures { result ≡ raised standing wanted free }
{
    let all = bits(
        holds(standing, 1) || holds(wanted, 1) && holds(free, 1),
        holds(standing, 2) || holds(wanted, 2) && holds(free, 2),
        holds(standing, 4) || holds(wanted, 4) && holds(free, 4),
    );
    lowered(all, 0)
}

// The greatest state that may be granted over a lease.
fn greatest(lease: Option<Lease>, wanted: u8, free: u8) -> u8
    ensures { result ≡ greatest lease wanted free }
{
    match lease {
        Some(lease) => {
            if lease.asked.is_some() {
                lease.state
            } else {
                raised(lease.state, wanted, free)
            }
        }
        None => raised(0, wanted, free),
    }
}

// The greatest state that may be granted on a node.
fn greatest_on(s: &Share, who: Who, key: Key, wanted: u8, node: u64) -> u8
    ensures { result ≡ greatest_on s.now who (key, wanted) node }
{
    let free = free_bits(s, who, key, node);
    greatest(lease_of(s.leases.as_slice(), who, key), wanted, free)
}

// Nothing.
fn no_granting() -> Granting
    ensures { result ≡ no_granting }
{
    Granting {
        key: None,
        state: 0,
        durable: false,
    }
}

// As much as may be granted of a wish on a node.
fn granting_with(s: &Share, who: Who, wish: Option<(Key, u8)>, durable: bool, node: u64) -> Granting
    ensures { result ≡ granting_with None s.now who wish durable node }
{
    let Some((key, wanted)) = wish else {
        return no_granting();
    };
    if is_taken(s.leases.as_slice(), who, key) {
        return no_granting();
    }
    let state = greatest_on(s, who, key, wanted, node);
    Granting {
        key: Some(key),
        state,
        durable: durable && holds(state, 2),
    }
}

// As much as a Create of this node may be granted.
pub(crate) fn granting_of(s: &Share, who: Who, w: Wanted, node: u64) -> Granting
    ensures { result ≡ granting_of None s.now who w node }
{
    granting_with(s, who, w.lease, w.durable, node)
}

// Has the lease that is granted stand. For want of memory nothing is changed.
pub(crate) fn grant(s: &mut Share, who: Who, g: Granting, node: u64) -> Result<(), NoMemory>
    ensures ok { OnOk result (s.new ≡ with_granting who g node s.old) }
    ensures err { OnErr result (s.new ≡ s.old) }
{
    match g.key {
        Some(key) => s.leases.grant(who, key, node, g.state),
        None => Ok(()),
    }
}
