//! Opens that have to be spent, and the numbers of descriptors.

use fs_handles::{Fds, KeptOpen, Opens, WireOpen};
use fs_types::Fd;
use smb_base::{Fid, Key, NoMemory, Units};
use std::process::Abort;

fn kept(rt: &(impl Abort + AllocGlobal), serial: u64) -> KeptOpen {
    match Units::of(rt.alloc(), &[97, 92, 98]) {
        Ok(path) => KeptOpen {
            serial,
            fid: Fid {
                persistent: 7,
                volatile: serial,
            },
            key: Some(Key([5; 16])),
            path,
            access: 3,
            durable: true,
        },
        Err(NoMemory) => panic!(rt; "no memory"),
    }
}

fn put(rt: &(impl Abort + AllocGlobal), opens: &mut Opens, serial: u64) -> usize {
    match opens.put(WireOpen::of(kept(rt, serial))) {
        Ok(at) => at,
        Err(open) => {
            open.lost();
            panic!(rt; "no memory")
        }
    }
}

#[test]
fn an_open_is_spent_in_each_way(rt: HostRuntime) {
    let open = WireOpen::of(kept(&rt, 1));
    assert_eq!(rt; open.seen().path.as_slice(), [97, 92, 98].as_slice());
    let known = open.keep();
    assert!(rt; known.serial == 1 && known.key == Some(Key([5; 16])));
    assert!(rt; known.fid.volatile == 1 && known.access == 3 && known.durable);
    WireOpen::of(known).closed();
    WireOpen::of(kept(&rt, 2)).lost();
}

#[test]
fn opens_are_kept_and_taken_out(rt: HostRuntime) {
    let mut opens = Opens::new(rt.alloc());
    let one = put(&rt, &mut opens, 1);
    let two = put(&rt, &mut opens, 2);
    assert!(rt; matches!(opens.seen(one), Some(known) if known.serial == 1));
    match opens.take(one) {
        Some(open) => {
            assert_eq!(rt; open.seen().serial, 1);
            open.closed();
        }
        None => panic!(rt; "no open"),
    }
    match opens.take(one) {
        Some(open) => {
            open.lost();
            panic!(rt; "taken twice")
        }
        None => assert!(rt; opens.seen(one).is_none()),
    }
    assert!(rt; matches!(opens.seen(two), Some(known) if known.serial == 2));
}

fn reserved(rt: &(impl Abort + AllocGlobal), fds: &mut Fds) -> Fd {
    match fds.reserve() {
        Some(fd) => fd,
        None => panic!(rt; "no number"),
    }
}

fn bound(rt: &(impl Abort + AllocGlobal), fds: &mut Fds, description: usize) -> Fd {
    let fd = reserved(rt, fds);
    assert!(rt; fds.is_reserved(fd));
    fds.bind(fd, description);
    fd
}

#[test]
fn the_least_number_is_given_again(rt: HostRuntime) {
    match Fds::new(rt.alloc()) {
        Ok(mut fds) => {
            let first = bound(&rt, &mut fds, 7);
            let second = bound(&rt, &mut fds, 7);
            let third = bound(&rt, &mut fds, 8);
            assert!(rt; first == Fd(0) && second == Fd(1) && third == Fd(2));
            assert!(rt; fds.count(7) == 2 && fds.description(third) == Some(8));
            assert_eq!(rt; fds.description(second), Some(7));
            fds.unbind(second);
            assert!(rt; fds.is_reserved(second) && fds.count(7) == 1);
            fds.release(second);
            assert!(rt; !fds.is_reserved(second) && fds.description(second).is_none());
            assert_eq!(rt; reserved(&rt, &mut fds), Fd(1));
            assert_eq!(rt; reserved(&rt, &mut fds), Fd(3));
        }
        Err(NoMemory) => panic!(rt; "no memory"),
    }
}
