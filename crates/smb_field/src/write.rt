//! The one spelling of a body.

ghost use Rattle.std.specs.Prelude.{◌≡◌, ◌++◌, ◌+◌, ◌-◌, ◌%◌, ◌^◌, ◌<◌, OnOk, OnErr, length, take, replicate};
ghost use Rattle.smb_le.specs.Numbers.{bytes_of};
ghost use Rattle.smb_field.specs.Fields.{spelled_field, spelled, width_of, Fits, AllFit};
ghost use Rattle.smb_field.specs.Body.{end_of_fixed, named, places_of, tail, WritesBody};
ghost use Rattle.smb_field.specs.TwoParts.{second_place, places_of_two, tail_of_two, WritesBodyOfTwo};
ghost use Rattle.smb_field.specs.Structure.{WritesStructure};

use crate::field::{Field, Places};
use smb_base::NoMemory;

/// Appends bytes. For want of memory nothing is changed.
fn append(out: &mut Vec<u8>, bytes: &[u8]) -> Result<(), NoMemory>
    ensures ok { OnOk result (out.new.items ≡ out.old.items ++ bytes.now) }
    ensures err { OnErr result (out.new.items ≡ out.old.items) }
{
    out.extend_from_slice(bytes)?;
    Ok(())
}

/// Appends a field.
#[tactic(auto, unfolding(smb_le::specs::Numbers::bytes_of))]
fn put_field(out: &mut Vec<u8>, field: Field, places: Places) -> Result<(), NoMemory>
    ensures ok { OnOk result (out.new.items ≡ out.old.items ++ spelled_field places field) }
    ensures err { OnErr result (out.new.items ≡ out.old.items) }
    ensures fits { Fits field }
{
    match field {
        Field::U8(n) => append(out, &[n]),
        Field::U16(n) => append(out, &n.to_le_bytes()),
        Field::U32(n) => append(out, &n.to_le_bytes()),
        Field::U64(n) => append(out, &n.to_le_bytes()),
        Field::Block(bytes) => append(out, &bytes),
        Field::Name(bytes) => append(out, &bytes),
        Field::Any8(n) => append(out, &[n]),
        Field::Any16(n) => append(out, &n.to_le_bytes()),
        Field::Any32(n) => append(out, &n.to_le_bytes()),
        Field::Any64(n) => append(out, &n.to_le_bytes()),
        Field::Place8 => append(out, &[places.behind]),
        Field::Offset16 => append(out, &places.first.to_le_bytes()),
        Field::Offset32 => append(out, &u32::from(places.first).to_le_bytes()),
        Field::Second32 => append(out, &places.second.to_le_bytes()),
        Field::Follows => append(out, &[]),
    }
}

/// Appends fields. For want of memory what was there still leads.
fn put_fields(out: &mut Vec<u8>, fields: &[Field], places: Places) -> Result<(), NoMemory>
    ensures ok { OnOk result ((out.new.items ≡ out.old.items ++ spelled places fields.now) × AllFit fields.now) }
    ensures err { OnErr result (take (length out.old.items) out.new.items ≡ out.old.items) }
{
    for field in fields {
        put_field(out, *field, places)?;
    }
    Ok(())
}

/// Appends a structure size and fields. For want of memory what was there still leads.
#[tactic(auto, unfolding(smb_le::specs::Numbers::bytes_of))]
fn put_fixed(out: &mut Vec<u8>, size: u16, fields: &[Field], places: Places) -> Result<(), NoMemory>
    ensures ok { OnOk result ((out.new.items ≡ out.old.items ++ (bytes_of 2 size ++ spelled places fields.now)) × AllFit fields.now) }
    ensures err { OnErr result (take (length out.old.items) out.new.items ≡ out.old.items) }
{
    match append(out, &size.to_le_bytes()) {
        Ok(()) => put_fields(out, fields, places),
        Err(fault) => Err(fault),
    }
}

/// Appends the variable part, or what stands for it.
fn put_tail(out: &mut Vec<u8>, size: u16, part: &[u8]) -> Result<(), NoMemory>
    ensures ok { OnOk result (out.new.items ≡ out.old.items ++ tail size part.now) }
    ensures err { OnErr result (out.new.items ≡ out.old.items) }
{
    if !part.is_empty() {
        append(out, part)
    } else if size % 2 == 1 {
        append(out, &[0])
    } else {
        Ok(())
    }
}

/// Appends a body. For want of memory what was there still leads.
fn put_whole(
    out: &mut Vec<u8>,
    size: u16,
    fields: &[Field],
    places: Places,
    part: &[u8],
) -> Result<(), NoMemory>
    ensures ok { OnOk result ((out.new.items ≡ out.old.items ++ (bytes_of 2 size ++ (spelled places fields.now ++ tail size part.now))) × AllFit fields.now) }
    ensures err { OnErr result (take (length out.old.items) out.new.items ≡ out.old.items) }
{
    match put_fixed(out, size, fields, places) {
        Ok(()) => put_tail(out, size, part),
        Err(fault) => Err(fault),
    }
}

/// The offsets that a body with one variable part names.
fn places_of(size: u16, part: &[u8]) -> Places
    requires { size < 192 }
    ensures { result ≡ places_of size part.now }
{
    let behind = (64 + size - size % 2) as u8;
    let first = if part.is_empty() {
        0
    } else {
        u16::from(behind)
    };
    Places {
        behind,
        first,
        second: 0,
    }
}

/// Appends the one spelling of a body: its structure size, its fields, and behind them the variable part, or one zero byte
/// where that is empty and the size is odd. For want of memory nothing is changed.
pub fn put_varied(
    out: &mut Vec<u8>,
    size: u16,
    fields: &[Field],
    part: &[u8],
) -> Result<(), NoMemory>
    requires small { size < 192 }
    requires whole { 2 + width_of fields.now ≡ size - size % 2 }
    ensures { WritesBody size fields.now part.now out.old.items out.new.items result }
{
    let start = out.len();
    match put_whole(out, size, fields, places_of(size, part), part) {
        Ok(()) => Ok(()),
        Err(fault) => {
            out.truncate(start);
            Err(fault)
        }
    }
}

/// Appends two variable parts, or what stands for them. For want of memory what was there still leads.
fn put_tail_of_two(
    out: &mut Vec<u8>,
    size: u16,
    first: &[u8],
    second: &[u8],
) -> Result<(), NoMemory>
    requires small { size < 192 }
    requires short { length first.now < 2 ^ 16 }
    ensures ok { OnOk result (out.new.items ≡ out.old.items ++ tail_of_two size first.now second.now) }
    ensures err { OnErr result (take (length out.old.items) out.new.items ≡ out.old.items) }
{
    if second.is_empty() {
        return put_tail(out, size, first);
    }
    match append(out, first) {
        Ok(()) => put_second(out, gap(size, first), second),
        Err(fault) => Err(fault),
    }
}

/// How many zero bytes stand between two variable parts.
fn gap(size: u16, first: &[u8]) -> usize
    requires small { size < 192 }
    requires short { length first.now < 2 ^ 16 }
    ensures { result ≡ second_place size first.now - (end_of_fixed size + length first.now) }
{
    let end = 64 + usize::from(size - size % 2) + first.len();
    (end + 7) / 8 * 8 - end
}

/// Appends zero bytes, at most 7, and the second part behind them. For want of memory what was there still leads.
fn put_second(out: &mut Vec<u8>, gap: usize, second: &[u8]) -> Result<(), NoMemory>
    requires { gap < 8 }
    ensures ok { OnOk result (out.new.items ≡ out.old.items ++ (replicate gap 0 ++ second.now)) }
    ensures err { OnErr result (take (length out.old.items) out.new.items ≡ out.old.items) }
{
    match append(out, &[0; 7][..gap]) {
        Ok(()) => append(out, second),
        Err(fault) => Err(fault),
    }
}

/// Appends a body with two variable parts. For want of memory what was there still leads.
fn put_whole_of_two(
    out: &mut Vec<u8>,
    size: u16,
    fields: &[Field],
    places: Places,
    first: &[u8],
    second: &[u8],
) -> Result<(), NoMemory>
    requires small { size < 192 }
    requires short { length first.now < 2 ^ 16 }
    ensures ok { OnOk result ((out.new.items ≡ out.old.items ++ (bytes_of 2 size ++ (spelled places fields.now ++ tail_of_two size first.now second.now))) × AllFit fields.now) }
    ensures err { OnErr result (take (length out.old.items) out.new.items ≡ out.old.items) }
{
    match put_fixed(out, size, fields, places) {
        Ok(()) => put_tail_of_two(out, size, first, second),
        Err(fault) => Err(fault),
    }
}

/// The offsets that a body with two variable parts names.
fn places_of_two(size: u16, first: &[u8], second: &[u8]) -> Places
    requires small { size < 192 }
    requires short { length first.now < 2 ^ 16 }
    ensures { result ≡ places_of_two size first.now second.now }
{
    let one = places_of(size, first);
    let second = if second.is_empty() {
        0
    } else {
        (64 + u32::from(size - size % 2) + first.len() as u32 + 7) / 8 * 8
    };
    Places {
        behind: one.behind,
        first: one.first,
        second,
    }
}

/// Appends the one spelling of a body with two variable parts: its structure size, its fields, and behind them the first part,
/// zero bytes up to a multiple of 8, and the second; where the second is empty as `put_varied` does. For want of memory nothing is
/// changed.
pub fn put_parts(
    out: &mut Vec<u8>,
    size: u16,
    fields: &[Field],
    first: &[u8],
    second: &[u8],
) -> Result<(), NoMemory>
    requires small { size < 192 }
    requires whole { 2 + width_of fields.now ≡ size - size % 2 }
    requires short { length first.now < 2 ^ 16 }
    ensures { WritesBodyOfTwo size fields.now first.now second.now out.old.items out.new.items result }
{
    let start = out.len();
    match put_whole_of_two(
        out,
        size,
        fields,
        places_of_two(size, first, second),
        first,
        second,
    ) {
        Ok(()) => Ok(()),
        Err(fault) => {
            out.truncate(start);
            Err(fault)
        }
    }
}

/// Appends fields and bytes behind them. For want of memory what was there still leads.
fn put_both(
    out: &mut Vec<u8>,
    fields: &[Field],
    places: Places,
    part: &[u8],
) -> Result<(), NoMemory>
    ensures ok { OnOk result ((out.new.items ≡ out.old.items ++ (spelled places fields.now ++ part.now)) × AllFit fields.now) }
    ensures err { OnErr result (take (length out.old.items) out.new.items ≡ out.old.items) }
{
    match put_fields(out, fields, places) {
        Ok(()) => append(out, part),
        Err(fault) => Err(fault),
    }
}

/// The offsets that a structure names, whose fields take `width` bytes.
fn places_in(width: u8, part: &[u8]) -> Places
    ensures { result ≡ record { behind = width; first = named part.now width; second = 0 } }
{
    let first = if part.is_empty() { 0 } else { u16::from(width) };
    Places {
        behind: width,
        first,
        second: 0,
    }
}

/// Appends the one spelling of a structure inside a part, as a create context or a class of information: fields, which take
/// `width` bytes together, and bytes behind them. For want of memory nothing is changed.
pub fn put_structure(
    out: &mut Vec<u8>,
    width: u8,
    fields: &[Field],
    part: &[u8],
) -> Result<(), NoMemory>
    requires { width_of fields.now ≡ width }
    ensures { WritesStructure fields.now part.now out.old.items out.new.items result }
{
    let start = out.len();
    match put_both(out, fields, places_in(width, part), part) {
        Ok(()) => Ok(()),
        Err(fault) => {
            out.truncate(start);
            Err(fault)
        }
    }
}
