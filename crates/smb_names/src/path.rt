//! The text of a path, its components and its wire form.

ghost use Rattle.std.specs.Prelude.{◌≡◌, ◌++◌, IfOk, OnOk, All};
ghost use Rattle.smb_names.specs.WireName.{Gives};
ghost use Rattle.smb_names.specs.Path.{components, after_part, is_here, is_above, IsComponent, path_text, first_fault, joined, path_of, IsCutInto};

use crate::fault::NameFault;
use crate::map::NameMap;
use crate::name::{fault_of, write_name};
use smb_base::{NoMemory, Text, TextList, Units};
use std::alloc::Global;

/// The backslash, which stands between the components of a path on the wire.
const SEPARATOR: u16 = 0x5C;

/// The components of a path from the root. Empty ones and `.` are dropped, and `..` takes off the component before it, or nothing
/// at the root. So none of them is empty, `.` or `..`, or has a slash; and a slash before each of them makes a path that is split
/// into the same again. It fails only for want of memory.
pub fn split_path(alloc: Global, path: &str) -> Result<TextList, NoMemory>
    ensures split { IfOk result (λ list. list ≡ components path.now) }
    ensures proper { IfOk result (All IsComponent) }
    ensures again { IfOk result (λ list. components (path_text list) ≡ list) }
{
    let mut found = TextList::new(alloc);
    for part in path.split('/') {
        add_part(alloc, &mut found, part)?;
    }
    Ok(found)
}

// What one part between two slashes does to the components before it.
#[tactic(auto, using(crate::proofs::Steps::popped), unfolding(crate::specs::Path::after_part))]
fn add_part(alloc: Global, found: &mut TextList, part: &str) -> Result<(), NoMemory>
    ensures { OnOk result (found.new ≡ after_part found.old part.now) }
{
    if is_here(part) {
        return Ok(());
    }
    if is_above(part) {
        found.pop();
        return Ok(());
    }
    found.push(Text::of(alloc, part)?)
}

// Whether a part names the directory where it stands.
fn is_here(part: &str) -> bool
    ensures { result ≡ is_here part.now }
{
    part.is_empty() || part == "."
}

// Whether a part names the directory above.
fn is_above(part: &str) -> bool
    ensures { result ≡ is_above part.now }
{
    part == ".."
}

/// A path as the wire has it (MS-SMB2 2.2.13): the wire names of its components with a backslash between two of them, and no unit
/// for the root. The first component that has a fault decides which fault is answered; NoMemory comes only where none has one.
pub fn wire_path(alloc: Global, components: &[Text], map: NameMap) -> Result<Units, NameFault>
    ensures wire { Gives (path_of map components.now) result }
    ensures cut { IfOk result (IsCutInto map components.now) }
{
    if let Some(fault) = first_fault(components, map) {
        return Err(fault);
    }
    let mut units = Units::new(alloc);
    write_path(&mut units, components, map)?;
    Ok(units)
}

// The fault of the first component that has one.
fn first_fault(components: &[Text], map: NameMap) -> Option<NameFault>
    ensures { result ≡ first_fault map components.now }
{
    for component in components {
        let fault = fault_of(component.as_str(), map);
        if fault.is_some() {
            return fault;
        }
    }
    None
}

// Adds the units of a path whose components have no fault.
fn write_path(units: &mut Units, components: &[Text], map: NameMap) -> Result<(), NoMemory>
    ensures { OnOk result (units.new ≡ units.old ++ joined map components.now) }
{
    let Some((first, others)) = components.split_first() else {
        return Ok(());
    };
    write_name(units, first.as_str(), map)?;
    for component in others {
        units.push(SEPARATOR)?;
        write_name(units, component.as_str(), map)?;
    }
    Ok(())
}
