//! One open of the server.

ghost use Rattle.std.specs.Prelude.{◌≡◌};

use smb_base::{Fid, Key, Units};
use std::marker::Model;

/// What is known of an open that the server gave (MS-SMB2 2.2.14). It is plain data, and may be let go.
#[derive(Debug, Drop)]
pub struct KeptOpen {
    /// Its number among the successful replies to CREATE of this run, from 1 on. An open that is taken up again on a new connection keeps
    /// its number, so that two opens never have the same one, and the greater one was opened later.
    pub serial: u64,
    /// The id that the server gave it.
    pub fid: Fid,
    /// The key of its lease, if it was opened with one.
    pub key: Option<Key>,
    /// The path by which it was opened, as it is sent.
    pub path: Units,
    /// What it may do (MS-SMB2 2.2.13.1).
    pub access: u32,
    /// It outlives a lost connection.
    pub durable: bool,
}

/// An open that stands at the server. It is a value that cannot be let go: it is kept, or the server closed it, or it is lost.
/// A contract sees what is known of it.
pub struct WireOpen {
    held: KeptOpen,
}

impl Model for WireOpen {
    ghost use Rattle.fs_handles.specs.declared.open.KeptOpen.{KeptOpen};

    ghost Value = { KeptOpen };

    ghost view = { λ o. o.held };
}

impl WireOpen {
    /// The open of which this is known: a reply gave it, or it was kept.
    pub fn of(kept: KeptOpen) -> WireOpen
        ensures { result ≡ kept }
    {
        WireOpen { held: kept }
    }

    /// Lends what is known of it.
    pub fn seen(&self) -> &KeptOpen
        ensures { result.now ≡ self.now }
    {
        &self.held
    }

    /// Spends it: it stands, and what is known of it is kept, to make it anew later.
    pub fn keep(self) -> KeptOpen
        ensures { result ≡ self }
    {
        let WireOpen { held } = self;
        held
    }

    /// Spends it: the server has said that it is closed (MS-SMB2 2.2.16).
    pub fn closed(self) {
        let WireOpen { held: _known } = self;
    }

    /// Spends it: its connection is gone, and it with it or out of reach.
    pub fn lost(self) {
        let WireOpen { held: _known } = self;
    }
}
