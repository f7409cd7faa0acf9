//! One component of a path and its wire name.

ghost use Rattle.std.specs.Prelude.{◌≡◌, ◌++◌, List, ℕ, OnOk, IfOk, IsTrue, All, length};
ghost use Rattle.std.specs.Str.{chars, IsUtf8};
ghost use Rattle.std.specs.Char.Escape.{encode_utf16};
ghost use Rattle.smb_names.specs.WireName.{utf16, holds_reserved, fault_of, spelling, wire_of, is_allowed, Gives, Reads, NeverShareAWireName};
ghost use Rattle.smb_names.specs.WireSteps.{original_chars, GivesOriginal};

use crate::characters::{is_refused, original_char, stands_for, wire_char};
use crate::fault::NameFault;
use crate::map::NameMap;
use smb_base::{NoMemory, Text, Units};
use std::alloc::Global;

/// The most units that a name has.
const LONGEST: usize = 255;

/// The wire name of one component of a path. Its faults, in this order: Empty; TooLong where the name has more than 255 units of
/// UTF-16; Reserved where it has U+0000, `/`, one of U+F001 to U+F029 or, under [`NameMap::Plain`], a character that
/// [`NameMap::Sfm`] would change; and NoMemory.
pub fn to_wire(alloc: Global, name: &str, map: NameMap) -> Result<Units, NameFault>
    ensures wire { Gives (wire_of map name.now) result }
    ensures allowed { IfOk result (All (λ unit. IsTrue (is_allowed unit))) }
{
    if let Some(fault) = fault_of(name, map) {
        return Err(fault);
    }
    let mut units = Units::new(alloc);
    write_name(&mut units, name, map)?;
    Ok(units)
}

/// The name whose wire name these units are. Its faults, in this order: Empty; TooLong where there are more than 255 units;
/// Surrogate where they are no well-formed UTF-16; Reserved where no name has them as its wire name. Memory may run out at each
/// step after the second.
pub fn from_wire(alloc: Global, units: &[u16], map: NameMap) -> Result<Text, NameFault>
    ensures reads { Reads map units.now result }
    ensures only { (name : List ℕ) → IsUtf8 name → wire_of map name ≡ Ok units.now → Gives (Ok name) result }
{
    if units.is_empty() {
        return Err(NameFault::Empty);
    }
    if units.len() > LONGEST {
        return Err(NameFault::TooLong);
    }
    match String::from_utf16(alloc, units)? {
        Ok(wire) => original_name(alloc, wire.as_str(), map),
        Err(_) => Err(NameFault::Surrogate),
    }
}

/// Two different names never have the same wire name, under either map: a law on the definition of wire names.
pub fn never_share_a_wire_name()
    ensures { NeverShareAWireName }
{}

// The first fault of a name, memory aside.
#[tactic(auto, unfolding(crate::specs::WireName::fault_of))]
pub(crate) fn fault_of(name: &str, map: NameMap) -> Option<NameFault>
    ensures { result ≡ fault_of map name.now }
{
    if name.is_empty() {
        Some(NameFault::Empty)
    } else if utf16_len(name) > LONGEST {
        Some(NameFault::TooLong)
    } else if holds_reserved(name, map) {
        Some(NameFault::Reserved)
    } else {
        None
    }
}

// How many units of UTF-16 a text has.
fn utf16_len(text: &str) -> usize
    ensures { result ≡ length (utf16 (chars text.now)) }
{
    let mut len = 0;
    for c in text.chars() {
        len += c.len_utf16();
    }
    len
}

// Whether a character of the name has no form on the wire.
fn holds_reserved(name: &str, map: NameMap) -> bool
    ensures { result ≡ holds_reserved map (chars name.now) }
{
    let mut left = name.chars();
    while let Some(c) = left.next() {
        if is_refused(c, left.as_str().is_empty(), map) {
            return true;
        }
    }
    false
}

// Adds the units of a name that has no fault.
pub(crate) fn write_name(units: &mut Units, name: &str, map: NameMap) -> Result<(), NoMemory>
    ensures { OnOk result (units.new ≡ units.old ++ spelling map name.now) }
{
    let mut left = name.chars();
    while let Some(c) = left.next() {
        let wire = wire_char(c, left.as_str().is_empty(), map);
        write_char(units, wire)?;
    }
    Ok(())
}

// Adds the one or two units of a character.
fn write_char(units: &mut Units, c: char) -> Result<(), NoMemory>
    ensures { OnOk result (units.new ≡ units.old ++ encode_utf16 c) }
{
    let mut room = [0; 2];
    units.extend(c.encode_utf16(&mut room))
}

// The name that a wire name stands for, given its characters.
fn original_name(alloc: Global, wire: &str, map: NameMap) -> Result<Text, NameFault>
    ensures { GivesOriginal (original_chars map (chars wire.now)) result }
{
    let mut name = String::new(alloc);
    let mut left = wire.chars();
    while let Some(w) = left.next() {
        let c = original_char(w, map);
        if !stands_for(w, c, left.as_str().is_empty(), map) {
            return Err(NameFault::Reserved);
        }
        name.push(c)?;
    }
    Ok(Text::of_string(name))
}
