//! Texts, lists and flags.

use bitflags::Flags;
use smb_base::{Mid, NoMemory, Text, TextList, Units};
use smb_credit::{NO_REQUEST, Window};
use smb_info::DirEntry;
use smb_le::{HeadFlags, ServerCaps};
use smb_names::{NameFault, never_share_a_wire_name};
use std::process::Abort;
use std::test::Fail;

fn text(rt: &(impl Abort + AllocGlobal), s: &str) -> Text {
    match Text::of(rt.alloc(), s) {
        Ok(text) => text,
        Err(NoMemory) => panic!(rt; "no memory"),
    }
}

#[test]
fn a_text_grows(rt: HostRuntime) {
    let mut t = text(&rt, "a");
    assert!(rt; t.push_str("b\u{e9}").is_ok());
    assert_eq!(rt; t.as_str(), "ab\u{e9}");
    assert_eq!(rt; t.len(), 4);
}

#[test]
fn texts_and_units_are_kept(rt: HostRuntime) {
    let mut texts = TextList::new(rt.alloc());
    assert!(rt; texts.is_empty() && texts.push(text(&rt, "x")).is_ok());
    match TextList::of(rt.alloc(), texts.as_slice()) {
        Ok(copy) => assert_eq!(rt; copy.as_slice().len(), 1),
        Err(NoMemory) => panic!(rt; "no memory"),
    }
    assert!(rt; matches!(Units::of(rt.alloc(), &[65535]), Ok(copy) if copy.len() == 1));
}

#[test]
fn unknown_flags_are_kept(rt: HostRuntime) {
    let flags = HeadFlags::from_bits_retain(0x1000_0005);
    assert!(rt; flags.contains(HeadFlags::REPLY) && flags.contains(HeadFlags::RELATED));
    assert!(rt; !flags.contains(HeadFlags::ASYNC) && !flags.contains(HeadFlags::SIGNED));
    assert_eq!(rt; flags.bits(), 0x1000_0005);
    let caps = ServerCaps::from_bits_retain(0x46);
    assert!(rt; caps.contains(ServerCaps::LEASING) && caps.contains(ServerCaps::LARGE_MTU));
    assert_eq!(rt; caps.bits(), 0x46);
}

#[test]
fn a_fault_of_a_name_says_what_is_wrong(rt: HostRuntime) -> Result<(), Fail> {
    let rows = [
        (NameFault::Empty, "the name is empty"),
        (
            NameFault::TooLong,
            "the name has more than 255 units of UTF-16",
        ),
        (NameFault::Reserved, "the name has a reserved character"),
        (NameFault::Surrogate, "a surrogate stands alone"),
        (NameFault::NoMemory, "out of memory"),
    ];
    for (fault, text) in rows {
        let shown = format!(in rt.alloc(); "{fault}")?;
        assert_eq!(rt; shown.as_str(), text);
    }
    never_share_a_wire_name();
    Ok(())
}

#[test]
fn ids_are_granted_and_used_in_order(rt: HostRuntime) {
    // MS-SMB2 3.2.4.1.6: from the set { 0 }, two credits make { 0, 1, 2 }.
    let mut window = Window::new();
    window.grant(2);
    assert_eq!(rt; window.free(), 3);
    let mut tried = window.copy();
    assert_eq!(rt; tried.take(3), Some(Mid(0)));
    assert_eq!(rt; window.take(1), Some(Mid(0)));
    assert_eq!(rt; window.take(3), None);
    assert_eq!(rt; window.take(2), Some(Mid(1)));
    assert_eq!(rt; window.free(), 0);
    assert_eq!(rt; NO_REQUEST.0, 18_446_744_073_709_551_615);
}

fn entry(next: u32, name: &[u8]) -> DirEntry<'_> {
    DirEntry {
        next,
        index: 0,
        times: [1, 2, 3, 4],
        end_of_file: 5,
        allocation_size: 4096,
        attributes: 0x20,
        ea_size: 0,
        number: 9,
        name,
    }
}

#[test]
fn an_entry_is_padded_to_8(rt: HostRuntime) {
    let name = [0x61; 9];
    assert_eq!(rt; entry(0, &[]).padded(), 80);
    assert_eq!(rt; entry(0, &name[..8]).padded(), 88);
    assert_eq!(rt; entry(0, &name).padded(), 96);
    assert!(rt; entry(0, &name).is_placed() && !entry(88, &name).is_placed());
}
