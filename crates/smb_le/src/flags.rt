//! Flag sets. Bits that have no name here are kept.

use bitflags::{Flag, Flags, bitflag_items};

/// The flags of a message's header (MS-SMB2 2.2.1.1 and 2.2.1.2).
#[derive(Clone, Copy, Debug, PartialEq, Eq)]
pub struct HeadFlags(pub u32);

bitflag_items! {
    impl HeadFlags: u32 {
        const REPLY = 1;
        const ASYNC = 2;
        const RELATED = 4;
        const SIGNED = 8;
    }
}

impl Flags for HeadFlags {
    ghost use Rattle.std.specs.Prelude.{⊤, [], ◌∷◌, codes};

    type Bits = u32;

    ghost exact = { ⊤ };

    ghost table = { (codes "REPLY", 1) ∷ (codes "ASYNC", 2) ∷ (codes "RELATED", 4) ∷ (codes "SIGNED", 8) ∷ [] };

    ghost set_of = { λ f. f.0 };

    fn flags<'a>() -> &'a [Flag<HeadFlags>] {
        HeadFlags::FLAGS
    }

    fn bits(&self) -> u32 {
        self.0
    }

    fn from_bits_retain(bits: u32) -> HeadFlags {
        HeadFlags(bits)
    }
}

/// What a server can do (MS-SMB2 2.2.4, Capabilities).
#[derive(Clone, Copy, Debug, PartialEq, Eq)]
pub struct ServerCaps(pub u32);

bitflag_items! {
    impl ServerCaps: u32 {
        const LEASING = 2;
        const LARGE_MTU = 4;
    }
}

impl Flags for ServerCaps {
    ghost use Rattle.std.specs.Prelude.{⊤, [], ◌∷◌, codes};

    type Bits = u32;

    ghost exact = { ⊤ };

    ghost table = { (codes "LEASING", 2) ∷ (codes "LARGE_MTU", 4) ∷ [] };

    ghost set_of = { λ f. f.0 };

    fn flags<'a>() -> &'a [Flag<ServerCaps>] {
        ServerCaps::FLAGS
    }

    fn bits(&self) -> u32 {
        self.0
    }

    fn from_bits_retain(bits: u32) -> ServerCaps {
        ServerCaps(bits)
    }
}
