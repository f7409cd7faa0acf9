//! A chain that is empty, and how long a chain may be.

use smb_chain::ChainBuilder;
use std::test::Fail;

#[test]
fn an_empty_chain_is_an_empty_frame(rt: HostRuntime) -> Result<(), Fail> {
    let frame = ChainBuilder::new(rt.alloc()).finish()?;
    assert_eq!(rt; frame.as_slice(), [0, 0, 0, 0].as_slice());
    Ok(())
}

#[test]
fn a_chain_has_a_limit(rt: HostRuntime) {
    let chain = ChainBuilder::new(rt.alloc());
    assert_eq!(rt; chain.len(), 0);
    for (body, fits) in [
        (0, true),
        (1_114_048, true),
        (1_114_049, false),
        (usize::MAX, false),
    ] {
        assert_eq!(rt; chain.has_room(body), fits);
    }
}
