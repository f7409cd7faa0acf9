//! Calls that run.

ghost use Rattle.std.specs.Prelude.{◌≡◌};
ghost use Rattle.std.specs.Option.{option_copied};
ghost use Rattle.fs_core.specs.Parts.{slot_with, on_slot, slots_but, is_lane_free};
ghost use Rattle.fs_core.specs.Steps.{spoken, advanced_slot};
ghost use Rattle.fs_core.specs.Asks.{progress_with, asking_with, first_said};

use crate::flight::{Flight, is_idle};
use crate::stat::{Outcome, Progress, Stat};
use fs_types::Options;
use share_state::Rep;

/// A call that was begun and is not answered.
#[derive(Drop)]
pub(crate) struct Slot {
    /// The number of its line.
    pub(crate) number: u64,
    /// Its lane.
    pub(crate) lane: u8,
    /// Whether a frame was announced for it.
    pub(crate) announced: bool,
    /// How far it has come.
    pub(crate) stat: Stat,
}

/// Whether no call runs in a lane.
pub(crate) fn is_lane_free(slots: &[Slot], lane: u8) -> bool
    ensures { result ≡ is_lane_free lane slots.now }
{
    for slot in slots {
        if slot.lane == lane {
            return false;
        }
    }
    true
}

/// The call with a number.
pub(crate) fn slot_with(slots: &[Slot], number: u64) -> Option<&Slot>
    ensures { option_copied result ≡ slot_with number slots.now }
{
    for slot in slots {
        if slot.number == number {
            return Some(slot);
        }
    }
    None
}

/// Whether the call with a number asks for its first request, where it has nothing in flight and asks for something.
pub(crate) fn asking_with(slots: &[Slot], flights: &[Flight], number: u64) -> Option<bool>
    ensures { result ≡ asking_with number flights.now slots.now }
{
    if !is_idle(flights, number) {
        return None;
    }
    match progress_with(slots, number) {
        Some(Progress::Opening) => Some(true),
        Some(Progress::Querying(_)) => Some(false),
        Some(Progress::Closing(_, _)) => Some(false),
        Some(Progress::Said(_)) => None,
        None => None,
    }
}

// How far the call with a number has come.
fn progress_with(slots: &[Slot], number: u64) -> Option<Progress>
    ensures { result ≡ progress_with number slots.now }
{
    match slot_with(slots, number) {
        Some(slot) => Some(slot.stat.progress),
        None => None,
    }
}

/// The first call that has its answer and nothing in flight.
pub(crate) fn first_said(slots: &[Slot], flights: &[Flight]) -> Option<(u64, Outcome)>
    ensures { result ≡ first_said flights.now slots.now }
{
    for slot in slots {
        if let Some(outcome) = slot.stat.progress.said() {
            if is_idle(flights, slot.number) {
                return Some((slot.number, outcome));
            }
        }
    }
    None
}

/// A frame is announced for the call with a number.
pub(crate) fn speak(slots: &mut [Slot], number: u64)
    ensures { slots.new ≡ on_slot number spoken slots.old }
{
    for slot in slots.iter_mut() {
        if slot.number == number {
            slot.announced = true;
            return;
        }
    }
}

/// The next request of the call with a number has this reply.
pub(crate) fn advance(slots: &mut [Slot], number: u64, options: &Options, reply: &Rep)
    ensures { slots.new ≡ on_slot number (advanced_slot options.now reply.now) slots.old }
{
    for slot in slots.iter_mut() {
        if slot.number == number {
            slot.stat.reply(options, reply);
            return;
        }
    }
}

/// The call with a number is answered.
pub(crate) fn remove_slot(slots: &mut Vec<Slot>, number: u64)
    ensures { slots.new.items ≡ slots_but number slots.old.items }
{
    slots.retain(|slot| slot.number != number);
}
