//! Replies that came before their turn: each waits until the requests before its own in their frame are answered.

ghost use Rattle.std.specs.Prelude.{◌≡◌, option_map};
ghost use Rattle.fs_core.specs.Parts.{is_held, held_but};
ghost use Rattle.fs_core.specs.Steps.{turn_if, next_turn};

use crate::flight::{Flight, flight_with, is_first};
use share_state::Rep;
use smb_base::Mid;

/// Whether a reply to the request with an id waits.
pub(crate) fn is_held(early: &[(Mid, Rep)], mid: Mid) -> bool
    ensures { result ≡ is_held mid early.now }
{
    for held in early {
        if held.0.0 == mid.0 {
            return true;
        }
    }
    false
}

/// The first of them whose request has come to its turn, and that request.
pub(crate) fn next_turn<'a>(
    flights: &[Flight],
    early: &'a [(Mid, Rep)],
) -> Option<(Flight, &'a Rep)>
    ensures { option_map (λ t. (t.0, t.1.now)) result ≡ next_turn flights.now early.now }
{
    for held in early {
        if let Some(flight) = flight_with(flights, held.0) {
            if is_first(flights, &flight) {
                return Some((flight, &held.1));
            }
        }
    }
    None
}

/// The reply to the request with an id waits no more.
pub(crate) fn let_go(early: &mut Vec<(Mid, Rep)>, mid: Mid)
    ensures { early.new.items ≡ held_but mid early.old.items }
{
    early.retain(|held| held.0.0 != mid.0);
}
