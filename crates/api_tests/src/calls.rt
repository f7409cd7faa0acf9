//! A copy of a call and of an answer says the same.

use fs_types::{Answer, Call, Fd, Kind, Listing, NameList};
use smb_base::{Bytes, Errno, Text};
use std::process::Abort;

fn text(rt: &(impl Abort + AllocGlobal), s: &str) -> Text {
    Text::of(rt.alloc(), s).expect(rt, "memory")
}

fn bytes(rt: &(impl Abort + AllocGlobal), b: &[u8]) -> Bytes {
    Bytes::of(rt.alloc(), b).expect(rt, "memory")
}

#[test]
fn a_copy_of_a_call_says_the_same(rt: HostRuntime) {
    for (call, shown) in [
        (
            Call::Open(text(&rt, "/a"), 12),
            "Open(Text { held: \"/a\" }, 12)",
        ),
        (
            Call::Pwrite(Fd(3), 7, bytes(&rt, &[1, 2])),
            "Pwrite(Fd(3), 7, Bytes { held: [1, 2] })",
        ),
        (
            Call::Rename(text(&rt, "/a"), text(&rt, "/b")),
            "Rename(Text { held: \"/a\" }, Text { held: \"/b\" })",
        ),
        (Call::Lock(Fd(1), 5, 9, true), "Lock(Fd(1), 5, 9, true)"),
        (Call::Statfs, "Statfs"),
    ] {
        let copy = call.copied(rt.alloc()).expect(&rt, "memory");
        drop(call);
        let copy = format!(in rt.alloc(); "{copy:?}").expect(&rt, "memory");
        assert_eq!(rt; copy.as_str(), shown);
    }
}

#[test]
fn a_copy_of_an_answer_says_the_same(rt: HostRuntime) {
    let mut names = NameList::new(rt.alloc());
    assert!(rt; names.push(text(&rt, "l"), Kind::Link).is_ok());
    for (answer, shown) in [
        (Answer::Done, "Done"),
        (
            Answer::Bytes(bytes(&rt, &[7])),
            "Bytes(Bytes { held: [7] })",
        ),
        (
            Answer::Names(Listing { names, bad: 2 }),
            "Names(Listing { names: NameList { held: [(Text { held: \"l\" }, Link)] }, bad: 2 })",
        ),
        (Answer::Room(9, 4), "Room(9, 4)"),
        (Answer::Err(Errno(2), None), "Err(Errno(2), None)"),
    ] {
        let copy = answer.copied(rt.alloc()).expect(&rt, "memory");
        drop(answer);
        let copy = format!(in rt.alloc(); "{copy:?}").expect(&rt, "memory");
        assert_eq!(rt; copy.as_str(), shown);
    }
}
