//! What the connection itself asks: the mount of the share, and the leaving of it.

ghost use Rattle.std.specs.Prelude.{◌≡◌, ◌≤◌, ◌∷◌, [], true, None, Some, IfErr, OnOk};
ghost use Rattle.smb_head.specs.declared.first.TheConstants.{MAX_FRAME};
ghost use Rattle.smb_mux.specs.Sending.{room_of};
ghost use Rattle.fs_core.specs.declared.fault.CoreFault.TheVariants as fault;
ghost use Rattle.fs_core.specs.Asks.{mount_asks, leave_asks};
ghost use Rattle.fs_core.specs.Event.{Puts, Lives, Stops};
ghost use Rattle.fs_core.specs.Parts.{has_flight};
ghost use Rattle.fs_core.specs.Written.{IsWrittenIn};
ghost use Rattle.fs_core.specs.Going.{IsQuiet, IsStill, SendsAside, FailsToSend, left_of, with_kept, with_phase, flown_aside};

use crate::fault::{CoreFault, Protocol};
use crate::flight::{Flight, Kind};
use crate::machine::Core;
use crate::output::Output;
use crate::phase::Phase;
use crate::request::Requests;
use smb_base::Mid;
use smb_head::Request;
use smb_mux::SubmitFault;
use std::mem;

impl Core {
    // While a mount is under way and nothing is in flight, its next request is sent.
    pub(crate) fn mount_on(&mut self) -> Result<(), CoreFault>
        requires quiet { IsQuiet self.old.kept }
        ensures puts { OnOk result (Puts 3 3 self.old self.new) }
        ensures still { OnOk result (IsStill self.new.kept) }
        ensures err { IfErr result (Stops self.old) }
    {
        if !self.state.flights.is_empty() {
            return Ok(());
        }
        match self.state.phase.mount_request(self.alloc)? {
            Some(request) => self.mount_by(request),
            None => Ok(()),
        }
    }

    // A request of the mount is sent.
    fn mount_by(&mut self, request: Request) -> Result<(), CoreFault>
        requires asks { mount_asks self.old.kept.phase ≡ Some request }
        requires written { IsWrittenIn self.old.kept.phase request }
        requires no_flight { self.old.kept.flights ≡ [] }
        ensures puts { OnOk result (Puts 3 3 self.old self.new) }
        ensures flies { OnOk result (has_flight self.new.kept.flights ≡ true) }
        ensures err { IfErr result (Stops self.old) }
    {
        self.send_aside(request)
    }

    // Once the end was said, no call runs and nothing is in flight, the share is left, one step at a time.
    pub(crate) fn leave_on(&mut self) -> Result<(), CoreFault>
        requires still { IsStill self.old.kept }
        ensures puts { OnOk result (Puts 3 4 self.old self.new) }
        ensures lives { OnOk result (Lives self.new.kept) }
        ensures err { IfErr result (Stops self.old) }
    {
        if !self.state.flights.is_empty() {
            return Ok(());
        }
        let ended = self.state.ended;
        match self.state.phase.leave_request(self.alloc, ended)? {
            Some(request) => self.leave_by(request),
            None => self.leave_last(),
        }
    }

    // A request that leaves the share is sent.
    fn leave_by(&mut self, request: Request) -> Result<(), CoreFault>
        requires asks { leave_asks self.old.kept.ended self.old.kept.phase ≡ Some request }
        requires no_flight { self.old.kept.flights ≡ [] }
        requires no_call { self.old.kept.slots ≡ [] }
        ensures puts { OnOk result (Puts 3 3 self.old self.new) }
        ensures flies { OnOk result (has_flight self.new.kept.flights ≡ true) }
        ensures err { IfErr result (Stops self.old) }
    {
        match self.send_aside(request) {
            Ok(()) => {
                self.step_out();
                Ok(())
            }
            Err(fault) => Err(fault),
        }
    }

    // The share is left where both were answered.
    fn leave_last(&mut self) -> Result<(), CoreFault>
        requires asks { leave_asks self.old.kept.ended self.old.kept.phase ≡ None }
        requires still { IsStill self.old.kept }
        requires no_flight { self.old.kept.flights ≡ [] }
        ensures puts { OnOk result (Puts 4 4 self.old self.new) }
        ensures lives { OnOk result (Lives self.new.kept) }
        ensures err { IfErr result (λ f. f ≡ fault.NoMemory) }
    {
        match &self.state.phase {
            Phase::LeavingSession(_) => {
                self.step_out();
                self.put(Output::Left)
            }
            _ => Ok(()),
        }
    }

    // The next phase of leaving.
    fn step_out(&mut self)
        ensures { self.new ≡ with_phase (left_of self.old.kept.phase) self.old }
    {
        self.state.phase = mem::replace(&mut self.state.phase, Phase::Lost).left();
    }

    // Sends a request of the connection itself. Nothing else is in flight, so that where the ids do not suffice, no reply brings more.
    fn send_aside(&mut self, request: Request) -> Result<(), CoreFault>
        requires room { room_of (request ∷ []) ≤ MAX_FRAME }
        ensures sends { OnOk result (SendsAside request self.old self.new) }
        ensures err { IfErr result (FailsToSend request self.old) }
    {
        let mut requests = Requests::new(self.alloc);
        requests.push(request)?;
        match self.state.mux.submit(requests.as_slice()) {
            Ok(ticket) => {
                self.put(Output::Send(ticket.frame))?;
                self.fly_aside(ticket.first)
            }
            Err(SubmitFault::Starved) => Err(CoreFault::Protocol(Protocol::NoCredit)),
            Err(SubmitFault::NoMemory) => Err(CoreFault::NoMemory),
        }
    }

    // A request of the connection itself is in flight.
    fn fly_aside(&mut self, mid: Mid) -> Result<(), CoreFault>
        ensures ok { OnOk result (self.new ≡ with_kept (flown_aside mid self.old.kept) self.old) }
        ensures err { IfErr result (λ f. f ≡ fault.NoMemory) }
    {
        let flight = Flight {
            mid,
            frame: mid,
            owner: None,
            kind: Kind::Aside,
            related: false,
            refused: false,
        };
        match self.state.flights.push(flight) {
            Ok(()) => Ok(()),
            Err(_) => Err(CoreFault::NoMemory),
        }
    }
}
