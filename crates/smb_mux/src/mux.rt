//! Requests in flight.

ghost use Rattle.std.specs.Prelude.{◌≡◌, ◌≤◌, ◌<◌, ◌++◌, ◌∷◌, [], length, take, drop, map, Ok, IfOk, OnOk, OnErr};
ghost use Rattle.smb_head.specs.declared.first.TheConstants.{MAX_FRAME};
ghost use Rattle.smb_head.specs.Stream.{frame};
ghost use Rattle.smb_head.specs.Header.{head_of};
ghost use Rattle.smb_chain.specs.Chain.{chain, parts_for};
ghost use Rattle.smb_credit.specs.Window.{usable, least};
ghost use Rattle.smb_mux.specs.Sending.{costs, placed, room_of, ids_after, flights_of};
ghost use Rattle.smb_mux.specs.Judged.{judged, IsAnswer};
ghost use Rattle.smb_mux.specs.InFlight.{start, after_sending, after_taking, granted_in, granted_by, without, AreBelow, IsStarved};
ghost use Rattle.smb_chain.specs.Parts.{parts_of};
ghost use Rattle.smb_mux.specs.Answers.{AreAnswers, Remain, messages_of};

use crate::fault::{SubmitFault, TakeFault};
use crate::judge::judge;
use crate::send::{cost, frame_len, framed, sent};
use crate::taken::{Reply, Taken};
use smb_base::{Bytes, Mid, NoMemory};
use smb_chain::split;
use smb_credit::Window;
use smb_head::{Request, read_head};
use std::alloc::Global;
use std::collections::BTreeMap;
use std::marker::Model;

/// A frame of requests that are in flight, to be sent.
#[derive(Drop)]
pub struct Ticket {
    /// The id of the first request.
    pub first: Mid,
    /// How many requests there are.
    pub count: u16,
    /// The frame, with the four bytes in front of it.
    pub frame: Bytes,
}

/// A connection with requests in flight. A contract sees its ids, and the requests that are not answered, each by its id and its
/// command.
#[derive(Drop)]
pub struct Mux {
    alloc: Global,
    window: Window,
    // The command of each request in flight, by its id.
    flights: BTreeMap<u64, u16>,
}

impl Model for Mux {
    ghost use Rattle.std.specs.Prelude.{length};
    ghost use Rattle.smb_mux.specs.InFlight.{InFlight, AreBelow};

    ghost Value = { InFlight };

    ghost view = { λ m. record { ids = m.window; awaited = m.flights.entries } };

    ghost invariant = { λ m. AreBelow (length m.window.used) m.flights.entries };
}

impl Mux {
    /// A new connection, with nothing in flight. It takes no memory.
    pub fn new(alloc: Global) -> Mux
        ensures { result ≡ start }
    {
        Mux {
            alloc,
            window: Window::new(),
            flights: BTreeMap::new(alloc),
        }
    }

    /// Puts requests in flight, as one frame: each under the least id that may be used, with as many ids as its charge says, but one
    /// where that is 0. A related one is flagged so; its body, which has a file id of sixteen bytes FF, is copied as it is.
    ///
    /// # Errors
    ///
    /// `Starved` exactly where they cost more ids than may be used, or want of memory; then nothing is changed.
    pub fn submit(&mut self, requests: &[Request]) -> Result<Ticket, SubmitFault>
        requires some { 0 < length requests.now }
        requires room { room_of requests.now ≤ MAX_FRAME }

        // The frame of these messages, the id of the first one, and how many there are.
        ensures frame { IfOk result (λ t. t.frame ≡ frame (chain (placed self.old.ids requests.now))) }
        // It is split into these messages again.
        ensures split_again { IfOk result (λ t. parts_of (drop 4 t.frame) ≡ map (λ part. Ok part) (parts_for (placed self.old.ids requests.now))) }
        ensures first { IfOk result (λ t. t.first.0 ≡ least self.old.ids) }
        ensures count { IfOk result (λ t. t.count ≡ length requests.now) }

        // Then they are in flight.
        ensures ok { OnOk result (self.new ≡ after_sending requests.now self.old) }
        ensures starved { IsStarved (length (usable self.old.ids)) (costs requests.now) result }
        ensures err { OnErr result (self.new ≡ self.old) }
    {
        let Some(ids) = sent(&self.window, requests) else {
            return Err(SubmitFault::Starved);
        };
        let Some(len) = frame_len(requests) else {
            unreachable!()
        };
        let Some(first) = self.window.copy().take(1) else {
            unreachable!()
        };
        let frame = framed(self.alloc, &self.window, requests, len)?;
        add_flights(&mut self.flights, &self.window, requests)?;
        self.window = ids;
        Ok(Ticket {
            first,
            count: requests.len() as u16,
            frame,
        })
    }

    /// Takes a frame (without its first four bytes): its messages in order, of which the first bad one decides. Each final reply is
    /// given with the id of its request, which is in flight no more; an interim reply leaves its request in flight. All credits that
    /// the messages grant count.
    ///
    /// # Errors
    ///
    /// The first fault, or want of memory; then nothing is changed.
    pub fn take(&mut self, frame: &[u8]) -> Result<Taken, TakeFault>
        ensures answer { IsAnswer (judged self.old.awaited frame.now) result }
        ensures ok { IfOk result (λ taken. self.new ≡ after_taking frame.now taken self.old) }
        ensures err { OnErr result (self.new ≡ self.old) }

        // Each reply is the final one to a request that was in flight, and no request has two.
        ensures answers { IfOk result (λ taken. AreAnswers self.old.awaited taken.replies) }

        // Those requests are in flight no more, and all others still are.
        ensures remain { IfOk result (λ taken. Remain taken.replies self.old.awaited self.new.awaited) }

        // Each message of the frame brought something.
        ensures all { IfOk result (λ taken. messages_of taken ≡ length (parts_of frame.now)) }
    {
        match judge(self.alloc, &self.flights, frame) {
            Ok(taken) => {
                grant_all(&mut self.window, frame);
                remove_all(&mut self.flights, taken.replies.as_slice());
                Ok(taken)
            }
            Err(fault) => Err(fault),
        }
    }

    /// Forgets all requests in flight and begins a new connection. It takes no memory.
    pub fn reset(&mut self)
        ensures { self.new ≡ start }
    {
        self.window = Window::new();
        self.flights.clear();
    }
}

// Puts requests in flight; for want of memory none is.
fn add_flights(
    flights: &mut BTreeMap<u64, u16>,
    window: &Window,
    requests: &[Request],
) -> Result<(), NoMemory>
    requires below { AreBelow (length window.now.used) flights.old.entries }
    requires enough { costs requests.now ≤ length (usable window.now) }
    ensures ok { OnOk result (flights.new.entries ≡ flights.old.entries ++ flights_of window.now requests.now) }
    ensures below { OnOk result (AreBelow (length (ids_after window.now requests.now).used) flights.new.entries) }
    ensures err { OnErr result (flights.new.entries ≡ flights.old.entries) }
{
    let before = flights.len();
    let mut ids = window.copy();
    for request in requests {
        match ids.take(cost(request.charge)) {
            Some(mid) => match flights.insert(mid.0, request.command) {
                Ok(_) => {}
                Err(_) => {
                    cut(flights, before);
                    return Err(NoMemory);
                }
            },
            None => unreachable!(),
        }
    }
    Ok(())
}

// Leaves so many of the requests that were sent first.
fn cut(flights: &mut BTreeMap<u64, u16>, many: usize)
    ensures { flights.new.entries ≡ take many flights.old.entries }
{
    while many < flights.len() {
        let _ = flights.pop_last();
    }
}

// All credits that the messages of a frame grant.
fn grant_all(window: &mut Window, frame: &[u8])
    ensures ids { window.new ≡ granted_in frame.now window.old }
    ensures used { window.new.used ≡ window.old.used }
{
    for part in split(frame) {
        if let Ok(message) = part {
            grant(window, message);
        }
    }
}

fn grant(window: &mut Window, message: &[u8])
    ensures ids { window.new ≡ granted_by (head_of message.now) window.old }
    ensures used { window.new.used ≡ window.old.used }
{
    match read_head(message) {
        Ok(head) => window.grant(head.credits),
        Err(_) => {}
    }
}

// Each of these replies answers its request.
fn remove_all(flights: &mut BTreeMap<u64, u16>, replies: &[Reply])
    ensures exact { flights.new.entries ≡ without replies.now flights.old.entries }
    ensures remain { Remain replies.now flights.old.entries flights.new.entries }
{
    for reply in replies {
        flights.remove(&reply.mid.0);
    }
}
