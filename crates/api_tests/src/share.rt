//! The lists of a share that no row of the programs fills.

use share_state::{
    BreakNeeds, GrantList, Lock, LockList, Owed, OwedList, ShareName, ShareNameList,
};
use smb_base::{Key, Units};
use std::process::Abort;

#[test]
fn each_list_takes_one(rt: HostRuntime) {
    let mut locks = LockList::new(rt.alloc());
    let lock = Lock {
        holder: 1,
        offset: 0,
        length: 5,
        exclusive: true,
    };
    assert!(rt; locks.push(lock).is_ok() && locks.as_slice().len() == 1);
    let mut needs = BreakNeeds::new(rt.alloc());
    assert!(rt; needs.push((Key([1; 16]), 3)).is_ok() && needs.as_slice().len() == 1);
    let mut names = ShareNameList::new(rt.alloc());
    let name = ShareName {
        name: Units::new(rt.alloc()),
        dir: false,
        size: 3,
        read_only: false,
        number: 2,
    };
    assert!(rt; names.push(name).is_ok() && names.as_slice().len() == 1);
    let mut grants = GrantList::new(rt.alloc());
    assert!(rt; grants.push(None).is_ok() && grants.as_slice().len() == 1);
    let mut owed = OwedList::new(rt.alloc());
    assert!(rt;
        owed.push(Owed::Notice(Key([1; 16]), 3, true)).is_ok() && owed.as_slice().len() == 1
    );
}
