//! The contexts of CREATE (MS-SMB2 2.2.13.2 and 2.2.14.2).

ghost use Rattle.std.specs.Prelude.{◌≡◌, ◌+◌, ◌^◌, ◌++◌, ◌≤◌, ◌<◌, ◌⊎◌, OnOk, OnErr, MatchOption, Some, None, Ok, Err, false, length, take, drop, bytes_eq, if◌then◌else◌};
ghost use Rattle.std.specs.Option.{option_or};
ghost use Rattle.smb_le.specs.Numbers.{number_at};
ghost use Rattle.smb_field.specs.Structure.{WritesStructure};
ghost use Rattle.smb_body_b.specs.Contexts.{entry, piece, context_of, is_short, lease_in, reclaim_in, joined, extended, read_of};
ghost use Rattle.smb_body_b.specs.Contexts.{context_fields, lease_content, fid_content, leases, durables, reclaims, spelled_some};
ghost use Rattle.smb_body_b.specs.Contexts.{spelled_behind, spelled_parts, FitsLease, FitsFid, WritesContexts};

use smb_base::{Fid, Key, NoMemory};
use smb_field::{BodyFault, Field, put_structure};
use smb_le::{get_u16, get_u32, get_u64, put_u32, put_u64};

/// What the contexts of a CREATE say.
#[derive(Clone, Copy)]
pub struct ContextSet {
    /// The key of a lease, and its state: the wanted one of a request, the granted one of a reply.
    pub lease: Option<(Key, u32)>,
    /// Whether a durable handle is asked for, or granted.
    pub durable: bool,
    /// The open that is reclaimed.
    pub reclaim: Option<Fid>,
}

/// A context, and the place of the next one, counted from its own start; 0 at the last.
#[derive(Drop)]
struct Context<'a> {
    name: &'a [u8],
    content: &'a [u8],
    next: u32,
}

/// The part of `size` bytes at a place of a list.
fn piece(list: &[u8], place: u16, size: u32) -> Option<&[u8]>
    ensures { MatchOption result (piece list.now place size ≡ None) (λ p. piece list.now place size ≡ Some p.now) }
{
    if size == 0 {
        return Some(&list[..0]);
    }
    let from = usize::from(place);
    let to = from + size as usize;
    if list.len() < to {
        return None;
    }
    Some(&list[from..to])
}

/// The context at the start of a list.
#[tactic(auto, unfolding(crate::specs::Contexts::context_of))]
fn context_of(list: &[u8]) -> Option<Context<'_>>
    ensures { MatchOption result (context_of list.now ≡ None)
        (λ c. (context_of list.now ≡ Some (entry c.name.now c.content.now))
        × (c.next ≡ number_at 4 0 list.now)
        × (16 ≤ length list.now)) }
{
    if list.len() < 16 {
        return None;
    }
    let Some(name) = piece(list, get_u16(list, 4), u32::from(get_u16(list, 6))) else {
        return None;
    };
    let Some(content) = piece(list, get_u16(list, 10), get_u32(list, 12)) else {
        return None;
    };
    Some(Context {
        name,
        content,
        next: get_u32(list, 0),
    })
}

/// Whether a name is this one.
fn is_name(name: &[u8], wanted: &[u8; 4]) -> bool
    ensures { result ≡ bytes_eq name.now wanted.now }
{
    name == wanted.as_slice()
}

/// The list from the next context on; none where it would begin in this context's 16 bytes, or behind the list.
fn after(list: &[u8], next: u32) -> Option<&[u8]>
    ensures { MatchOption result ((next < 16) ⊎ (length list.now < next))
        (λ p. (p.now ≡ drop next list.now) × (16 ≤ next)) }
{
    let at = next as usize;
    if at < 16 || list.len() < at {
        return None;
    }
    Some(&list[at..])
}

/// Whether a context has less data than it needs.
#[tactic(auto, unfolding(crate::specs::Contexts::is_short))]
fn is_short(context: &Context<'_>, reply: bool) -> bool
    ensures { result ≡ is_short reply (entry context.now.name.now context.now.content.now) }
{
    let size = context.content.len();
    let durable = if reply { 8 } else { 16 };
    is_name(context.name, b"RqLs") && size < 32
        || is_name(context.name, b"DHnQ") && size < durable
        || is_name(context.name, b"DHnC") && size < 16
}

/// The lease that was found, or that of a context.
#[tactic(auto, unfolding(crate::specs::Contexts::is_short, crate::specs::Contexts::lease_of))]
fn first_lease(found: Option<(Key, u32)>, context: &Context<'_>, reply: bool) -> Option<(Key, u32)>
    requires { is_short reply (entry context.now.name.now context.now.content.now) ≡ false }
    ensures { result ≡ option_or found (lease_in (entry context.now.name.now context.now.content.now)) }
{
    if found.is_some() || !is_name(context.name, b"RqLs") {
        return found;
    }
    let mut key = [0u8; 16];
    key.copy_from_slice(&context.content[..16]);
    Some((Key(key), get_u32(context.content, 16)))
}

/// The open that was found, or that of a context.
#[tactic(auto, unfolding(crate::specs::Contexts::is_short, crate::specs::Contexts::fid_of))]
fn first_reclaim(found: Option<Fid>, context: &Context<'_>, reply: bool) -> Option<Fid>
    requires { is_short reply (entry context.now.name.now context.now.content.now) ≡ false }
    ensures { result ≡ option_or found (reclaim_in (entry context.now.name.now context.now.content.now)) }
{
    if found.is_some() || !is_name(context.name, b"DHnC") {
        return found;
    }
    Some(Fid {
        persistent: get_u64(context.content, 0),
        volatile: get_u64(context.content, 8),
    })
}

/// What contexts say with one more behind them.
#[tactic(auto, unfolding(crate::specs::Contexts::joined))]
fn joined(set: ContextSet, context: &Context<'_>, reply: bool) -> ContextSet
    requires { is_short reply (entry context.now.name.now context.now.content.now) ≡ false }
    ensures { result ≡ joined set (entry context.now.name.now context.now.content.now) }
{
    ContextSet {
        lease: first_lease(set.lease, context, reply),
        durable: set.durable || is_name(context.name, b"DHnQ"),
        reclaim: first_reclaim(set.reclaim, context, reply),
    }
}

/// The same where one of them may be short.
#[tactic(auto, unfolding(crate::specs::Contexts::extended))]
fn extended(so_far: Option<ContextSet>, context: &Context<'_>, reply: bool) -> Option<ContextSet>
    ensures { result ≡ extended reply so_far (entry context.now.name.now context.now.content.now) }
{
    let Some(set) = so_far else {
        return None;
    };
    if is_short(context, reply) {
        return None;
    }
    Some(joined(set, context, reply))
}

/// Reads a list of create contexts, of a request or of a reply. Of a name that comes twice the first counts, and unknown names are
/// passed over. It is Offset exactly where a context, its name or its data leaves the list, or where the place of the next context
/// is not 0 and under 16; else Short exactly where a lease, a durable handle or a reclaim has less data than it needs.
pub fn read_contexts(list: &[u8], reply: bool) -> Result<ContextSet, BodyFault>
    ensures { result ≡ read_of reply list.now }
{
    let nothing = ContextSet {
        lease: None,
        durable: false,
        reclaim: None,
    };
    if list.is_empty() {
        return Ok(nothing);
    }
    let mut so_far = Some(nothing);
    let mut rest = list;
    loop {
        let Some(context) = context_of(rest) else {
            return Err(BodyFault::Offset);
        };
        so_far = extended(so_far, &context, reply);
        if context.next == 0 {
            return so_far.ok_or(BodyFault::Short);
        }
        let Some(others) = after(rest, context.next) else {
            return Err(BodyFault::Offset);
        };
        rest = others;
    }
}

/// The data of a lease.
#[tactic(auto, unfolding(crate::specs::Contexts::lease_content))]
fn lease_content(key: Key, state: u32) -> [u8; 32]
    ensures value { result ≡ lease_content (key, state) }
    ensures key { length key.0 ≡ 16 }
    ensures state { state < 2 ^ 32 }
{
    let mut content = [0u8; 32];
    content[..16].copy_from_slice(&key.0);
    put_u32(&mut content, 16, state);
    content
}

/// The data of a reclaim.
#[tactic(auto, unfolding(crate::specs::Contexts::fid_content))]
fn fid_content(fid: Fid) -> [u8; 16]
    ensures value { result ≡ fid_content fid }
    ensures persistent { fid.persistent < 2 ^ 64 }
    ensures volatile { fid.volatile < 2 ^ 64 }
{
    let mut content = [0u8; 16];
    put_u64(&mut content, 0, fid.persistent);
    put_u64(&mut content, 8, fid.volatile);
    content
}

/// Appends a context, with others behind it or without. For want of memory nothing is changed.
fn put_context(out: &mut Vec<u8>, more: bool, name: [u8; 4], content: &[u8]) -> Result<(), NoMemory>
    requires { length content.now < 256 }
    ensures { WritesStructure (context_fields (if more then 24 + length content.now else 0) (entry name content.now)) content.now
        out.old.items out.new.items result }
{
    let size = content.len() as u32;
    let next = if more { 24 + size } else { 0 };
    put_structure(
        out,
        24,
        &[
            Field::U32(next),
            Field::U16(16),
            Field::U16(4),
            Field::Any16(0),
            Field::U16(24),
            Field::U32(size),
            Field::Name(name),
            Field::Any32(0),
            Field::Follows,
        ],
        content,
    )
}

/// Appends the context of a lease, where there is one.
fn put_lease(out: &mut Vec<u8>, lease: Option<(Key, u32)>, more: bool) -> Result<(), NoMemory>
    ensures ok { OnOk result ((out.new.items ≡ out.old.items ++ spelled_some more (leases lease)) × FitsLease lease) }
    ensures err { OnErr result (out.new.items ≡ out.old.items) }
{
    match lease {
        Some((key, state)) => put_context(out, more, *b"RqLs", &lease_content(key, state)),
        None => Ok(()),
    }
}

/// Appends the context of a durable handle, where there is one.
fn put_durable(out: &mut Vec<u8>, durable: bool, reply: bool, more: bool) -> Result<(), NoMemory>
    ensures ok { OnOk result (out.new.items ≡ out.old.items ++ spelled_some more (durables reply durable)) }
    ensures err { OnErr result (out.new.items ≡ out.old.items) }
{
    if !durable {
        return Ok(());
    }
    if reply {
        put_context(out, more, *b"DHnQ", &[0; 8])
    } else {
        put_context(out, more, *b"DHnQ", &[0; 16])
    }
}

/// Appends the context of a reclaim, where there is one.
fn put_reclaim(out: &mut Vec<u8>, reclaim: Option<Fid>) -> Result<(), NoMemory>
    ensures ok { OnOk result ((out.new.items ≡ out.old.items ++ spelled_some false (reclaims reclaim)) × FitsFid reclaim) }
    ensures err { OnErr result (out.new.items ≡ out.old.items) }
{
    match reclaim {
        Some(fid) => put_context(out, false, *b"DHnC", &fid_content(fid)),
        None => Ok(()),
    }
}

/// Appends the contexts behind a lease. For want of memory what was there still leads.
fn put_rest(out: &mut Vec<u8>, set: &ContextSet, reply: bool) -> Result<(), NoMemory>
    ensures ok { OnOk result ((out.new.items ≡ out.old.items ++ spelled_behind reply set.now) × FitsFid set.now.reclaim) }
    ensures err { OnErr result (take (length out.old.items) out.new.items ≡ out.old.items) }
{
    match put_durable(out, set.durable, reply, set.reclaim.is_some()) {
        Ok(()) => put_reclaim(out, set.reclaim),
        Err(fault) => Err(fault),
    }
}

/// Appends contexts. For want of memory what was there still leads.
fn put_set(out: &mut Vec<u8>, set: &ContextSet, reply: bool) -> Result<(), NoMemory>
    ensures ok { OnOk result
        ((out.new.items ≡ out.old.items ++ spelled_parts reply set.now) × FitsLease set.now.lease × FitsFid set.now.reclaim) }
    ensures err { OnErr result (take (length out.old.items) out.new.items ≡ out.old.items) }
{
    match put_lease(out, set.lease, set.durable || set.reclaim.is_some()) {
        Ok(()) => put_rest(out, set, reply),
        Err(fault) => Err(fault),
    }
}

/// Appends create contexts, of a request or of a reply: a lease, a durable handle and a reclaim, in this order. For want of memory
/// nothing is changed.
pub fn write_contexts(out: &mut Vec<u8>, set: &ContextSet, reply: bool) -> Result<(), NoMemory>
    ensures { WritesContexts reply set.now out.old.items out.new.items result }
{
    let start = out.len();
    match put_set(out, set, reply) {
        Ok(()) => Ok(()),
        Err(fault) => {
            out.truncate(start);
            Err(fault)
        }
    }
}
