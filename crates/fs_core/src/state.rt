//! What the core keeps.

ghost use Rattle.std.specs.Prelude.{◌≡◌};
ghost use Rattle.fs_core.specs.Start.{kept_at_start};

use crate::flight::Flight;
use crate::phase::Phase;
use crate::slot::Slot;
use share_state::Rep;
use smb_base::Mid;
use smb_mount::New;
use smb_mux::Mux;
use std::alloc::Global;
use std::marker::Model;

/// What the core keeps between two inputs.
#[derive(Drop)]
pub(crate) struct State {
    /// The calls that run, in the order of beginning.
    pub(crate) slots: Vec<Slot>,
    /// The requests in flight, in the order of sending.
    pub(crate) flights: Vec<Flight>,
    /// The replies of requests behind an unanswered one of their frame, in the order of coming.
    pub(crate) early: Vec<(Mid, Rep)>,
    /// The ids of the connection.
    pub(crate) mux: Mux,
    /// How far the connection has come.
    pub(crate) phase: Phase,
    /// The number of the last call that began.
    pub(crate) last: Option<u64>,
    /// The latest time that was told.
    pub(crate) now: u64,
    /// No further call begins.
    pub(crate) ended: bool,
}

impl Model for State {
    ghost use Rattle.fs_core.specs.Kept.{Kept};

    ghost Value = { Kept };

    ghost view = { λ s. record { slots = s.slots.items; flights = s.flights.items; early = s.early.items; mux = s.mux; phase = s.phase; last = s.last; now = s.now; ended = s.ended } };
}

impl State {
    /// What is kept before the first input: this mount is to begin on the first connection. It takes no memory.
    pub(crate) fn new(alloc: Global, mount: New) -> State
        ensures { result ≡ kept_at_start mount }
    {
        State {
            slots: Vec::new(alloc),
            flights: Vec::new(alloc),
            early: Vec::new(alloc),
            mux: Mux::new(alloc),
            phase: Phase::Apart(mount),
            last: None,
            now: 0,
            ended: false,
        }
    }
}
