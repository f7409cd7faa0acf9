//! Leases, and what has to be broken.

ghost use Rattle.std.specs.Prelude.{◌≡◌, ◌++◌, ◌∷◌, [], OnOk, OnErr, Some, map};
ghost use Rattle.share_state.specs.State.{has};
ghost use Rattle.share_state.specs.Close.{kept_leases};
ghost use Rattle.share_state.specs.Leases.{bits, lowered, is_lease_of, lease_of, is_taken, set_lease, with_lease};

use crate::opens::{Open, has_open_of_key};
use crate::request::Who;
use smb_base::{Key, NoMemory};
use std::alloc::Global;
use std::marker::Model;

/// What a client may keep of a file (MS-SMB2 3.3.1.12). A state is a sum of 1 for reading (R), 2 for handles (H) and 4 for
/// writing (W).
#[derive(Clone, Copy)]
pub struct Lease {
    /// Whose it is.
    pub who: Who,
    /// The key that the client chose for it.
    pub key: Key,
    /// The number of the node that it is on.
    pub node: u64,
    /// What is granted.
    pub state: u8,
    /// The state that a break asked for, until it is acknowledged.
    pub asked: Option<u8>,
}

/// Leases. A contract sees the list of them.
#[derive(Drop)]
pub struct LeaseList {
    held: Vec<Lease>,
}

impl Model for LeaseList {
    ghost use Rattle.std.specs.Prelude.{List};
    ghost use Rattle.share_state.specs.declared.lease.Lease.{Lease};

    ghost Value = { List Lease };

    ghost view = { λ l. l.held.items };
}

impl LeaseList {
    /// No lease. It takes no memory.
    pub fn new(alloc: Global) -> LeaseList
        ensures { result ≡ [] }
    {
        LeaseList {
            held: Vec::new(alloc),
        }
    }

    /// Lends the leases.
    pub fn as_slice(&self) -> &[Lease]
        ensures { result.now ≡ self.now }
    {
        self.held.as_slice()
    }

    /// Adds one at the end. For want of memory nothing is changed.
    pub fn push(&mut self, item: Lease) -> Result<(), NoMemory>
        ensures ok { OnOk result (self.new ≡ self.old ++ item ∷ []) }
        ensures err { OnErr result (self.new ≡ self.old) }
    {
        self.held.push(item)?;
        Ok(())
    }

    /// Gives the lease of a client under a key this state, where one stands; else adds one on the node. For want of memory nothing is
    /// changed.
    pub fn grant(&mut self, who: Who, key: Key, node: u64, state: u8) -> Result<(), NoMemory>
        ensures ok { OnOk result (self.new ≡ with_lease who (Some key) node state self.old) }
        ensures err { OnErr result (self.new ≡ self.old) }
    {
        if lease_of(self.as_slice(), who, key).is_some() {
            set_in(&mut self.held, who, key, state);
            return Ok(());
        }
        self.push(Lease {
            who,
            key,
            node,
            state,
            asked: None,
        })
    }

    /// Keeps the leases that some open has.
    pub fn keep(&mut self, opens: &[Open])
        ensures { self.new ≡ kept_leases opens.now self.old }
    {
        keep_held(&mut self.held, opens);
    }
}

/// The breaks that a request has to wait for: the key of a lease, and the state to break it to. A contract sees the list of
/// these pairs.
#[derive(Drop)]
pub struct BreakNeeds {
    held: Vec<(Key, u8)>,
}

impl Model for BreakNeeds {
    ghost use Rattle.std.specs.Prelude.{List, ℕ};
    ghost use Rattle.smb_base.specs.declared.names.Key.{Key};

    ghost Value = { List (Key × ℕ) };

    ghost view = { λ l. l.held.items };
}

impl BreakNeeds {
    /// No pair. It takes no memory.
    pub fn new(alloc: Global) -> BreakNeeds
        ensures { result ≡ [] }
    {
        BreakNeeds {
            held: Vec::new(alloc),
        }
    }

    /// Lends the pairs.
    pub fn as_slice(&self) -> &[(Key, u8)]
        ensures { result.now ≡ self.now }
    {
        self.held.as_slice()
    }

    /// Adds one at the end. For want of memory nothing is changed.
    pub fn push(&mut self, item: (Key, u8)) -> Result<(), NoMemory>
        ensures ok { OnOk result (self.new ≡ self.old ++ item ∷ []) }
        ensures err { OnErr result (self.new ≡ self.old) }
    {
        self.held.push(item)?;
        Ok(())
    }
}

// Keeps the leases that some open has.
fn keep_held(leases: &mut Vec<Lease>, opens: &[Open])
    ensures { leases.new.items ≡ kept_leases opens.now leases.old.items }
{
    leases.retain(|lease| has_open_of_key(opens, lease.who, lease.key));
}

/// A set of the bits R, H and W.
pub fn bits(r: bool, h: bool, w: bool) -> u8
    ensures { result ≡ bits r h w }
{
    (if r { 1 } else { 0 }) + (if h { 2 } else { 0 }) + (if w { 4 } else { 0 })
}

/// The set has one of these bits.
pub fn holds(state: u8, gone: u8) -> bool
    ensures { result ≡ has state gone }
{
    state & gone != 0
}

/// The state that is left of a lease once these bits are gone.
pub fn lowered(state: u8, gone: u8) -> u8
    ensures { result ≡ lowered state gone }
{
    if holds(state, 1) && !holds(gone, 1) {
        bits(
            true,
            holds(state, 2) && !holds(gone, 2),
            holds(state, 4) && !holds(gone, 4),
        )
    } else {
        0
    }
}

/// The lease is this client's under this key.
pub fn is_lease_of(who: Who, key: Key, lease: &Lease) -> bool
    ensures { result ≡ is_lease_of who key lease.now }
{
    lease.who.0 == who.0 && lease.key.0.as_slice() == key.0.as_slice()
}

/// The lease of a client under a key.
pub fn lease_of(leases: &[Lease], who: Who, key: Key) -> Option<Lease>
    ensures { result ≡ lease_of leases.now who key }
{
    for lease in leases {
        if is_lease_of(who, key, lease) {
            return Some(*lease);
        }
    }
    None
}

/// A lease under the key is another client's.
pub fn is_taken(leases: &[Lease], who: Who, key: Key) -> bool
    ensures { result ≡ is_taken leases.now who key }
{
    leases.iter().any(|lease| lease.who.0 != who.0 && lease.key.0.as_slice() == key.0.as_slice())
}

// Gives each lease of a client under a key this state.
#[tactic(auto, using(std::proofs::lemmas::List::Edits::map_over_more))]
fn set_in(leases: &mut [Lease], who: Who, key: Key, state: u8)
    ensures { leases.new ≡ map (set_lease who key state) leases.old }
{
    for one in leases.iter_mut() {
        set_one(one, who, key, state);
    }
}

// Gives this lease the state where it is the client's under the key.
fn set_one(one: &mut Lease, who: Who, key: Key, state: u8)
    ensures { one.new ≡ set_lease who key state one.old }
{
    if is_lease_of(who, key, one) {
        one.state = state;
    }
}
