//! Requests in flight.

ghost use Rattle.std.specs.Prelude.{◌≡◌, ◌++◌, map, OnOk, Some};
ghost use Rattle.smb_base.specs.declared.names.Mid.{Mid};
ghost use Rattle.fs_core.specs.Parts.{flight_with, flights_but, is_first, is_number, is_idle, behind};
ghost use Rattle.fs_core.specs.Steps.{id_behind, flights_from, gives_open, is_open, flights_left};
ghost use Rattle.fs_core.specs.Asks.{kind_of, kinds_of};

use share_state::{Rep, RepBody};
use smb_base::{Mid, NoMemory};
use smb_head::Request;
use smb_head::command::{CLOSE, CREATE, QUERY_INFO};

/// What a request asks for.
#[derive(Clone, Copy, Debug, PartialEq, Eq)]
pub(crate) enum Kind {
    /// A CREATE of a call.
    Open,
    /// A QUERY_INFO of a call.
    Query,
    /// A CLOSE of a call.
    Close,
    /// Something of the connection itself.
    Aside,
}

/// A request in flight.
#[derive(Clone, Copy, Debug, PartialEq, Eq)]
pub(crate) struct Flight {
    /// Its id.
    pub(crate) mid: Mid,
    /// The id of the first request of its frame.
    pub(crate) frame: Mid,
    /// The number of the call that it is of; none where it is of the connection itself.
    pub(crate) owner: Option<u64>,
    /// What it asks for.
    pub(crate) kind: Kind,
    /// Whether it belongs to the request before it in its frame.
    pub(crate) related: bool,
    /// Whether it is refused with the CREATE before it.
    pub(crate) refused: bool,
}

/// The request with an id.
pub(crate) fn flight_with(flights: &[Flight], mid: Mid) -> Option<Flight>
    ensures { result ≡ flight_with mid flights.now }
{
    for flight in flights {
        if flight.mid.0 == mid.0 {
            return Some(*flight);
        }
    }
    None
}

/// Whether a request is the first one in flight of its frame.
pub(crate) fn is_first(flights: &[Flight], flight: &Flight) -> bool
    ensures { result ≡ is_first flights.now flight.now }
{
    for other in flights {
        if other.frame.0 == flight.frame.0 {
            return other.mid.0 == flight.mid.0;
        }
    }
    false
}

/// Whether nothing of the call with a number is in flight.
pub(crate) fn is_idle(flights: &[Flight], number: u64) -> bool
    ensures { result ≡ is_idle number flights.now }
{
    for flight in flights {
        if is_of(flight, number) {
            return false;
        }
    }
    true
}

// A request is of the call with a number.
fn is_of(flight: &Flight, number: u64) -> bool
    ensures { result ≡ is_number number flight.now.owner }
{
    match flight.owner {
        Some(owner) => owner == number,
        None => false,
    }
}

/// What a request with a command asks for.
pub(crate) fn kind_of(command: u16) -> Kind
    ensures { result ≡ kind_of command }
{
    match command {
        CREATE => Kind::Open,
        QUERY_INFO => Kind::Query,
        CLOSE => Kind::Close,
        _ => Kind::Aside,
    }
}

/// Requests of a call are sent as one frame, under ids from this one on. For want of memory some of them may be there.
pub(crate) fn add_flights(
    flights: &mut Vec<Flight>,
    owner: Option<u64>,
    first: Mid,
    requests: &[Request],
) -> Result<(), NoMemory>
    ensures { OnOk result (flights.new.items ≡ flights.old.items ++ flights_from owner first first.0 (kinds_of requests.now)) }
{
    let mut id = first.0;
    for request in requests {
        flights.push(Flight {
            mid: Mid(id),
            frame: first,
            owner,
            kind: kind_of(request.command),
            related: request.related,
            refused: false,
        })?;
        id = id.saturating_add(1);
    }
    Ok(())
}

/// The request with an id is answered.
pub(crate) fn remove_flight(flights: &mut Vec<Flight>, mid: Mid)
    ensures { flights.new.items ≡ flights_but mid flights.old.items }
{
    flights.retain(|flight| flight.mid.0 != mid.0);
}

/// A request is answered in its turn: it goes, and where it is a CREATE, those that are related to it are refused with it, or not.
pub(crate) fn leave(flights: &mut Vec<Flight>, flight: &Flight, reply: &Rep)
    ensures { flights.new.items ≡ flights_left flight.now reply.now flights.old.items }
{
    remove_flight(flights, flight.mid);
    if flight.kind == Kind::Open {
        refuse_behind(flights, flight.frame, !gives_open(reply));
    }
}

// The requests that are related to the CREATE of a frame are refused with it, or not.
#[tactic(auto, using(std::proofs::lemmas::List::Edits::map_over_more))]
fn refuse_behind(flights: &mut [Flight], frame: Mid, refused: bool)
    ensures { flights.new ≡ map (behind frame refused) flights.old }
{
    for flight in flights.iter_mut() {
        refuse(flight, frame, refused);
    }
}

fn refuse(flight: &mut Flight, frame: Mid, refused: bool)
    ensures { flight.new ≡ behind frame refused flight.old }
{
    if flight.frame.0 == frame.0 && flight.related {
        flight.refused = refused;
    }
}

// A reply to a CREATE gives an open.
fn gives_open(reply: &Rep) -> bool
    ensures { result ≡ gives_open reply.now.body }
{
    match reply.body {
        RepBody::Opened { .. } => true,
        _ => false,
    }
}
