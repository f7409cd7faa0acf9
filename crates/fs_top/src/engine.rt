//! What the engine keeps.

ghost use Rattle.std.specs.Prelude.{◌≡◌, ℕ, List, [], Option, None, option_map};
ghost use Rattle.fs_ahead.specs.Script.{coming_of, to_come};
ghost use Rattle.fs_ahead.specs.Steps.{IsAhead};
ghost use Rattle.fs_top.specs.Running.{first_place};

use crate::running::Running;
use fs_ahead::{Ahead, Over};
use fs_core::Core;
use smb_head::Frames;
use std::alloc::Global;

/// How many bytes one receive takes at most.
const ROOM: usize = 65_536;

/// What the engine keeps between two turns.
#[derive(Drop)]
pub struct Engine {
    /// The client.
    pub(crate) core: Core,
    /// The lines ahead.
    pub(crate) ahead: Ahead,
    /// Why the client was told that no further call begins; none while more may.
    pub(crate) over: Option<Over>,
    /// The calls that were begun and not answered.
    pub(crate) running: Running,
    /// The bytes of a frame that is not whole.
    pub(crate) frames: Frames,
    /// How many frames came.
    pub(crate) received: u32,
    /// How many receives in a row brought nothing while a request was unanswered.
    pub(crate) silences: u32,
    /// How many of them are borne.
    pub(crate) patience: u32,
    /// The room for what is received.
    pub(crate) room: [u8; ROOM],
}

impl Engine {
    /// Nothing was read and nothing came.
    pub fn new(alloc: Global, core: Core, patience: u32) -> Engine
        ensures core { result.core ≡ core }
        ensures starts { (result.over ≡ None) × (result.running ≡ []) × (result.frames ≡ []) × (result.received ≡ 0) × (result.silences ≡ 0) }
        ensures patience { result.patience ≡ patience }
        ensures ahead { IsAhead 0 result.ahead }
        ensures place { result.ahead ≡ first_place }
        ensures script { (left : Option (List ℕ)) → to_come result.ahead left ≡ option_map coming_of left }
    {
        Engine {
            core,
            ahead: Ahead::new(alloc),
            over: None,
            running: Running::new(alloc),
            frames: Frames::new(alloc),
            received: 0,
            silences: 0,
            patience,
            room: [0; ROOM],
        }
    }
}
