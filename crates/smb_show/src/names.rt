//! The kinds of names and paths, as `smb_names` reads and writes them. The bytes of a wire name are its units of UTF-16, the low byte
//! first; those of a name or a path are its UTF-8.

use crate::fault::LineFault;
use smb_base::{NoMemory, Text, TextList, Units};
use smb_names::{NameFault, NameMap, from_wire, split_path, to_wire, wire_path};
use std::alloc::Global;
use std::str;
use test_text::{Item, Page};

/// Adds the lines of a vector, if its kind is one of these.
pub fn show(page: &mut Page, kind: &str, bytes: &[u8]) -> Result<bool, LineFault> {
    match kind {
        "from_wire_sfm" => wire_name(page, bytes, NameMap::Sfm)?,
        "from_wire_plain" => wire_name(page, bytes, NameMap::Plain)?,
        "to_wire_sfm" => name(page, text_of(bytes)?, NameMap::Sfm)?,
        "to_wire_plain" => name(page, text_of(bytes)?, NameMap::Plain)?,
        "split_path" => path(page, text_of(bytes)?)?,
        "wire_path_sfm" => components(page, text_of(bytes)?, NameMap::Sfm)?,
        "wire_path_plain" => components(page, text_of(bytes)?, NameMap::Plain)?,
        _ => return Ok(false),
    }
    Ok(true)
}

fn text_of(bytes: &[u8]) -> Result<&str, LineFault> {
    match str::from_utf8(bytes) {
        Ok(text) => Ok(text),
        Err(_) => Err(LineFault::Text),
    }
}

// The units of UTF-16 that these bytes spell.
fn units_of(alloc: Global, bytes: &[u8]) -> Result<Units, LineFault> {
    if bytes.len() % 2 != 0 {
        return Err(LineFault::Unit);
    }
    let mut units = Units::new(alloc);
    for pair in bytes.chunks_exact(2) {
        if let [low, high] = pair {
            units.push(u16::from_le_bytes([*low, *high]))?;
        }
    }
    Ok(units)
}

// The bytes of units of UTF-16.
fn bytes_of(alloc: Global, units: &Units) -> Result<Vec<u8>, NoMemory> {
    let mut bytes = Vec::new(alloc);
    for unit in units.as_slice() {
        bytes.extend_from_slice(&unit.to_le_bytes())?;
    }
    Ok(bytes)
}

// The name that a wire name stands for.
fn wire_name(page: &mut Page, bytes: &[u8], map: NameMap) -> Result<(), LineFault> {
    let alloc = page.alloc();
    let units = units_of(alloc, bytes)?;
    match from_wire(alloc, units.as_slice(), map) {
        Err(fault) => name_fault(page, fault)?,
        Ok(name) => {
            page.fields(&[Item::Bytes("Name", name.as_str().as_bytes())])?;
            if let Ok(wire) = to_wire(alloc, name.as_str(), map) {
                let again = bytes_of(alloc, &wire)?;
                page.again(&again, bytes)?;
            }
        }
    }
    Ok(())
}

// The wire name of a name.
fn name(page: &mut Page, name: &str, map: NameMap) -> Result<(), NoMemory> {
    let alloc = page.alloc();
    match to_wire(alloc, name, map) {
        Err(fault) => name_fault(page, fault),
        Ok(wire) => {
            let bytes = bytes_of(alloc, &wire)?;
            page.fields(&[Item::Bytes("FileName", &bytes)])?;
            match from_wire(alloc, wire.as_slice(), map) {
                Ok(again) => page.again(again.as_str().as_bytes(), name.as_bytes()),
                Err(fault) => name_fault(page, fault),
            }
        }
    }
}

// The components of a path.
fn path(page: &mut Page, path: &str) -> Result<(), NoMemory> {
    let list = split_path(page.alloc(), path)?;
    for component in list.as_slice() {
        page.fields(&[Item::Bytes("Component", component.as_str().as_bytes())])?;
    }
    Ok(())
}

// The wire form of components, which stand in a text with U+0000 between two of them; no component is the empty text.
fn components(page: &mut Page, text: &str, map: NameMap) -> Result<(), NoMemory> {
    let alloc = page.alloc();
    let mut list = TextList::new(alloc);
    if !text.is_empty() {
        for component in text.split('\0') {
            list.push(Text::of(alloc, component)?)?;
        }
    }
    match wire_path(alloc, list.as_slice(), map) {
        Err(fault) => name_fault(page, fault),
        Ok(wire) => {
            let bytes = bytes_of(alloc, &wire)?;
            page.fields(&[Item::Bytes("Buffer", &bytes)])
        }
    }
}

fn name_fault(page: &mut Page, fault: NameFault) -> Result<(), NoMemory> {
    page.fault(match fault {
        NameFault::Empty => "Empty",
        NameFault::TooLong => "TooLong",
        NameFault::Reserved => "Reserved",
        NameFault::Surrogate => "Surrogate",
        NameFault::NoMemory => return Err(NoMemory),
    })
}
