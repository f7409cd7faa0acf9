//! What follows an input: answers and requests of calls, and then what the connection itself asks.

ghost use Rattle.std.specs.Prelude.{◌≡◌, ◌≤◌, ◌<◌, ◌^◌, ◌++◌, ◌∷◌, [], true, None, Some, IfOk, IfErr, OnOk, length};
ghost use Rattle.smb_head.specs.declared.first.TheConstants.{MAX_FRAME};
ghost use Rattle.smb_mux.specs.Sending.{room_of};
ghost use Rattle.fs_core.specs.declared.fault.CoreFault.TheVariants as fault;
ghost use Rattle.fs_core.specs.declared.fault.Protocol.TheVariants as protocol;
ghost use Rattle.fs_core.specs.declared.stat.Progress.TheVariants as progress;
ghost use Rattle.fs_core.specs.Asks.{first_said, progress_with, facts_of};
ghost use Rattle.fs_core.specs.Event.{Puts, Lives, Stops};
ghost use Rattle.fs_core.specs.Going.{IsWaiting, AreFew, Tries, IsQuiet, IsStill, Looks, LooksAt, IsChainWith, IsAloneWith, flown, with_kept};
ghost use Rattle.fs_core.specs.Parts.{has_flight};

use crate::fault::{CoreFault, Protocol};
use crate::flight::{add_flights, is_idle};
use crate::machine::Core;
use crate::output::Output;
use crate::request::Requests;
use crate::slot::{asking_with, first_said, remove_slot, slot_with, speak};
use crate::stat::Outcome;
use smb_base::{Mid, NoMemory};
use smb_link::Mark;
use smb_mount::Facts;
use smb_mux::SubmitFault;

impl Core {
    // All that follows an input.
    pub(crate) fn go_on(&mut self) -> Result<(), CoreFault>
        ensures puts { OnOk result (Puts 2 4 self.old self.new) }
        ensures lives { OnOk result (Lives self.new.kept) }
        ensures err { IfErr result (Stops self.old) }
    {
        match self.answer_all() {
            Ok(()) => self.go_on_answered(),
            Err(fault) => Err(fault),
        }
    }

    // The same once no call has its answer and nothing in flight.
    fn go_on_answered(&mut self) -> Result<(), CoreFault>
        requires answered { first_said self.old.kept.flights self.old.kept.slots ≡ None }
        ensures puts { OnOk result (Puts 3 4 self.old self.new) }
        ensures lives { OnOk result (Lives self.new.kept) }
        ensures err { IfErr result (Stops self.old) }
    {
        match self.send_all() {
            Ok(()) => self.go_on_sent(),
            Err(fault) => Err(fault),
        }
    }

    // The same once each call has sent what it asks for.
    fn go_on_sent(&mut self) -> Result<(), CoreFault>
        requires quiet { IsQuiet self.old.kept }
        ensures puts { OnOk result (Puts 3 4 self.old self.new) }
        ensures lives { OnOk result (Lives self.new.kept) }
        ensures err { IfErr result (Stops self.old) }
    {
        match self.mount_on() {
            Ok(()) => self.leave_on(),
            Err(fault) => Err(fault),
        }
    }

    // Each call that has its answer and nothing in flight is answered, in the order of beginning.
    fn answer_all(&mut self) -> Result<(), CoreFault>
        ensures puts { OnOk result (Puts 2 2 self.old self.new) }
        ensures none { OnOk result (first_said self.new.kept.flights self.new.kept.slots ≡ None) }
        ensures err { IfErr result (λ f. f ≡ fault.NoMemory) }
    {
        while let Some((number, outcome)) = first_said(&self.state.slots, &self.state.flights) {
            self.answer(number, outcome)?;
        }
        Ok(())
    }

    // The first such call is answered.
    fn answer(&mut self, number: u64, outcome: Outcome) -> Result<(), CoreFault>
        requires said { first_said self.old.kept.flights self.old.kept.slots ≡ Some (number, outcome) }
        ensures puts { OnOk result (Puts 2 2 self.old self.new) }
        ensures fewer { OnOk result (length self.new.kept.slots < length self.old.kept.slots) }
        ensures err { IfErr result (λ f. f ≡ fault.NoMemory) }
    {
        remove_slot(&mut self.state.slots, number);
        self.put(Output::Answer(number, outcome.answer()))
    }

    // Each call that has nothing in flight sends what it asks for next, in the order of beginning.
    fn send_all(&mut self) -> Result<(), CoreFault>
        requires answered { first_said self.old.kept.flights self.old.kept.slots ≡ None }
        ensures puts { OnOk result (Puts 3 3 self.old self.new) }
        ensures quiet { OnOk result (IsQuiet self.new.kept) }
        ensures err { IfErr result (Stops self.old) }
    {
        for index in 0..self.state.slots.len() {
            match self.send_at(index) {
                Ok(()) => {}
                Err(fault) => return Err(fault),
            }
        }
        Ok(())
    }

    // The same for the call at an index.
    fn send_at(&mut self, index: usize) -> Result<(), CoreFault>
        ensures puts { OnOk result (Puts 3 3 self.old self.new) }
        ensures looks { OnOk result (LooksAt index self.old self.new) }
        ensures err { IfErr result (Stops self.old) }
    {
        match self.state.slots.get(index) {
            Some(slot) => {
                let number = slot.number;
                self.send_for(number)
            }
            None => Ok(()),
        }
    }

    // The same for the call with a number.
    fn send_for(&mut self, number: u64) -> Result<(), CoreFault>
        ensures puts { OnOk result (Puts 3 3 self.old self.new) }
        ensures looks { OnOk result (Looks number self.old self.new) }
        ensures err { IfErr result (Stops self.old) }
    {
        match asking_with(&self.state.slots, &self.state.flights, number) {
            None => Ok(()),
            Some(true) => self.send_first(number),
            Some(false) => self.send_next(number),
        }
    }

    // Sends all requests of a call as one frame, or where the ids do not suffice its first one.
    fn send_first(&mut self, number: u64) -> Result<(), CoreFault>
        requires waits { IsWaiting number self.old.kept }
        requires opening { progress_with number self.old.kept.slots ≡ Some progress.Opening }
        ensures puts { OnOk result (Puts 3 3 self.old self.new) }
        ensures flies { OnOk result (has_flight self.new.kept.flights ≡ true) }
        ensures err { IfErr result (Stops self.old) }
    {
        let facts = match self.facts() {
            Ok(facts) => facts,
            Err(fault) => return Err(fault),
        };
        let requests = match self.chain_with(&facts, number) {
            Ok(requests) => requests,
            Err(NoMemory) => return Err(CoreFault::NoMemory),
        };
        match self.try_send(number, &requests) {
            Ok(true) => Ok(()),
            Ok(false) => self.send_next(number),
            Err(fault) => Err(fault),
        }
    }

    // Sends the next request of a call, where the ids suffice. Where they do not, it waits for a reply; nothing is in flight that could
    // have one where the server granted too few.
    fn send_next(&mut self, number: u64) -> Result<(), CoreFault>
        requires waits { IsWaiting number self.old.kept }
        requires few { AreFew number self.old.kept }
        ensures puts { OnOk result (Puts 3 3 self.old self.new) }
        ensures flies { OnOk result (has_flight self.new.kept.flights ≡ true) }
        ensures err { IfErr result (Stops self.old) }
    {
        let facts = match self.facts() {
            Ok(facts) => facts,
            Err(fault) => return Err(fault),
        };
        let requests = match self.alone_with(&facts, number) {
            Ok(requests) => requests,
            Err(NoMemory) => return Err(CoreFault::NoMemory),
        };
        match self.try_send(number, &requests) {
            Ok(true) => Ok(()),
            Ok(false) => self.wait(),
            Err(fault) => Err(fault),
        }
    }

    // What is known of the mounted share; a call that waits where none is mounted waits in vain.
    fn facts(&self) -> Result<Facts, CoreFault>
        ensures facts { IfOk result (λ facts. facts_of self.now.kept.phase ≡ Some facts) }
        ensures none { IfErr result (λ f. (f ≡ fault.Protocol protocol.NoCredit) × (facts_of self.now.kept.phase ≡ None)) }
    {
        match self.state.phase.facts() {
            Some(facts) => Ok(facts),
            None => Err(CoreFault::Protocol(Protocol::NoCredit)),
        }
    }

    // All requests of a call. It fails only for want of memory.
    fn chain_with(&self, facts: &Facts, number: u64) -> Result<Requests, NoMemory>
        requires waits { IsWaiting number self.now.kept }
        ensures chain { IfOk result (IsChainWith facts.now number self.now.kept) }
    {
        match slot_with(&self.state.slots, number) {
            Some(slot) => slot.stat.chain(self.alloc, facts),
            None => unreachable!(),
        }
    }

    // The next request of a call. It fails only for want of memory.
    fn alone_with(&self, facts: &Facts, number: u64) -> Result<Requests, NoMemory>
        requires waits { IsWaiting number self.now.kept }
        ensures alone { IfOk result (IsAloneWith facts.now number self.now.kept) }
    {
        match slot_with(&self.state.slots, number) {
            Some(slot) => slot.stat.alone(self.alloc, facts),
            None => unreachable!(),
        }
    }

    // A call waits for a reply that brings more ids; there is none to come where nothing is in flight.
    fn wait(&self) -> Result<(), CoreFault>
        ensures flies { OnOk result (has_flight self.now.kept.flights ≡ true) }
        ensures err { IfErr result (λ f. (f ≡ fault.Protocol protocol.NoCredit) × (self.now.kept.flights ≡ [])) }
    {
        if self.state.flights.is_empty() {
            return Err(CoreFault::Protocol(Protocol::NoCredit));
        }
        Ok(())
    }

    // Sends requests of a call as one frame, where the ids suffice; whether they do.
    fn try_send(&mut self, number: u64, requests: &Requests) -> Result<bool, CoreFault>
        requires some { 0 < length requests.now }
        requires room { room_of requests.now ≤ MAX_FRAME }
        ensures tries { IfOk result (λ sent. Tries number requests.now sent self.old self.new) }
        ensures err { IfErr result (λ f. f ≡ fault.NoMemory) }
    {
        match self.state.mux.submit(requests.as_slice()) {
            Ok(ticket) => {
                self.put(Output::Marked(Mark::For(number, ticket.first, ticket.count)))?;
                self.put(Output::Send(ticket.frame))?;
                self.fly(number, ticket.first, requests)?;
                Ok(true)
            }
            Err(SubmitFault::Starved) => Ok(false),
            Err(SubmitFault::NoMemory) => Err(CoreFault::NoMemory),
        }
    }

    // Requests of a call are in flight, under ids from this one on.
    fn fly(&mut self, number: u64, first: Mid, requests: &Requests) -> Result<(), CoreFault>
        ensures ok { OnOk result (self.new ≡ with_kept (flown number first requests.now self.old.kept) self.old) }
        ensures err { IfErr result (λ f. f ≡ fault.NoMemory) }
    {
        speak(&mut self.state.slots, number);
        add_flights(
            &mut self.state.flights,
            Some(number),
            first,
            requests.as_slice(),
        )?;
        Ok(())
    }

    // Adds an output.
    pub(crate) fn put(&mut self, output: Output) -> Result<(), CoreFault>
        ensures ok { OnOk result (self.new ≡ record self.old { outs = self.old.outs ++ output ∷ [] }) }
        ensures err { IfErr result (λ f. f ≡ fault.NoMemory) }
    {
        match self.outs.push_back(output) {
            Ok(()) => Ok(()),
            Err(_) => Err(CoreFault::NoMemory),
        }
    }
}
