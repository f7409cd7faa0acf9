//! What a frame brings.

ghost use Rattle.std.specs.Prelude.{◌≡◌, IsOk, IfOk, IfErr, OnOk, Ok, Some, is_some};
ghost use Rattle.smb_head.specs.Header.{head_of};
ghost use Rattle.smb_mux.specs.Judged.{judged};
ghost use Rattle.fs_core.specs.declared.input.Input.TheVariants as input;
ghost use Rattle.fs_core.specs.Event.{Comes, IsFaultOf};
ghost use Rattle.fs_core.specs.Going.{AreRead, with_kept, StopsAmong, StopsAt, StopsWith, StopsAside, StopsSaid, mount_fault_for, wire_fault_for};
ghost use Rattle.fs_core.specs.Steps.{with_frame, gone, turned, turned_with, next_turn, aside_gone, said_in, LeadsTo, LandsSaid, LandsAs, Lands, LandAll, fault_for};

use crate::early::{is_held, let_go, next_turn};
use crate::fault::{CoreFault, Protocol};
use crate::flight::{Flight, Kind, flight_with, is_first, leave, remove_flight};
use crate::machine::Core;
use crate::phase::Phase;
use crate::read::{WireFault, read_reply};
use crate::slot::advance;
use share_state::Rep;
use smb_base::Bytes;
use smb_field::BodyFault;
use smb_head::command::{CLOSE, CREATE, QUERY_INFO};
use smb_head::read_head;
use smb_mount::MountFault;
use smb_mux::{Malformed, Reply, TakeFault, Taken};
use std::mem;

impl Core {
    // Takes a whole frame: each final reply in it goes to its request.
    pub(crate) fn land(&mut self, frame: &Bytes) -> Result<(), CoreFault>
        ensures comes { OnOk result (Comes (input.Frame frame.now) self.old self.new) }
        ensures err { IfErr result (IsFaultOf (input.Frame frame.now) self.old) }
    {
        match self.take_replies(frame) {
            Ok(taken) => self.land_all(taken.replies.as_slice()),
            Err(fault) => Err(fault),
        }
    }

    // The replies in it; what it grants may be used then.
    fn take_replies(&mut self, frame: &Bytes) -> Result<Taken, CoreFault>
        ensures ok { IfOk result (λ taken. self.new ≡ with_kept (with_frame frame.now taken self.old.kept) self.old) }
        ensures sound { IfOk result (λ taken. judged self.old.kept.mux.awaited frame.now ≡ Ok taken) }
        ensures read { IfOk result (λ taken. AreRead taken.replies) }
        ensures err { IfErr result (IsFaultOf (input.Frame frame.now) self.old) }
    {
        match self.state.mux.take(frame.as_slice()) {
            Ok(taken) => Ok(taken),
            Err(fault) => Err(fault_of_take(fault)),
        }
    }

    // The replies land, one after another.
    fn land_all(&mut self, replies: &[Reply]) -> Result<(), CoreFault>
        requires read { AreRead replies.now }
        ensures land { OnOk result (LandAll self.old.setting.options replies.now self.old.kept self.new.kept) }
        ensures err { IfErr result (StopsAmong self.old.setting.options replies.now self.old.kept) }
        ensures setting { self.new.setting ≡ self.old.setting }
        ensures outs { self.new.outs ≡ self.old.outs }
    {
        for reply in replies {
            match self.land_reply(reply) {
                Ok(()) => {}
                Err(fault) => return Err(fault),
            }
        }
        Ok(())
    }

    // A reply that the connection has taken. One to a request that has a reply already counts for nothing.
    fn land_reply(&mut self, reply: &Reply) -> Result<(), CoreFault>
        requires read { IsOk (head_of reply.now.part) }
        ensures land { OnOk result (Lands self.old.setting.options reply.now self.old.kept self.new.kept) }
        ensures err { IfErr result (StopsAt reply.now self.old.kept) }
        ensures setting { self.new.setting ≡ self.old.setting }
        ensures outs { self.new.outs ≡ self.old.outs }
    {
        if is_held(&self.state.early, reply.mid) {
            return Ok(());
        }
        match flight_with(&self.state.flights, reply.mid) {
            Some(flight) => self.land_for(flight, reply.part.as_slice()),
            None => Ok(()),
        }
    }

    // The same for a request that is in flight.
    fn land_for(&mut self, flight: Flight, part: &[u8]) -> Result<(), CoreFault>
        requires read { IsOk (head_of part.now) }
        ensures land { OnOk result (LandsAs self.old.setting.options flight.kind flight part.now self.old.kept self.new.kept) }
        ensures err { IfErr result (StopsWith flight part.now self.old.kept) }
        ensures setting { self.new.setting ≡ self.old.setting }
        ensures outs { self.new.outs ≡ self.old.outs }
    {
        match flight.kind {
            Kind::Open => self.land_of_call(flight, CREATE, part),
            Kind::Query => self.land_of_call(flight, QUERY_INFO, part),
            Kind::Close => self.land_of_call(flight, CLOSE, part),
            Kind::Aside => self.land_aside(flight, part),
        }
    }

    // A request of the connection itself is answered.
    fn land_aside(&mut self, flight: Flight, part: &[u8]) -> Result<(), CoreFault>
        requires read { IsOk (head_of part.now) }
        ensures land { OnOk result (LeadsTo self.old.kept.phase part.now self.new.kept.phase × (self.new.kept ≡ aside_gone flight self.new.kept.phase self.old.kept)) }
        ensures err { IfErr result (StopsAside self.old.kept.phase part.now) }
        ensures setting { self.new.setting ≡ self.old.setting }
        ensures outs { self.new.outs ≡ self.old.outs }
    {
        match mem::replace(&mut self.state.phase, Phase::Lost).reply(part) {
            Ok(phase) => {
                self.state.phase = phase;
                remove_flight(&mut self.state.flights, flight.mid);
                Ok(())
            }
            Err(fault) => Err(fault_of_mount(fault)),
        }
    }

    // A request of a call is answered: in its turn the call goes on, and then those whose turn it is by that; before its turn, the reply
    // waits.
    fn land_of_call(&mut self, flight: Flight, command: u16, part: &[u8]) -> Result<(), CoreFault>
        ensures land { OnOk result (LandsSaid self.old.setting.options command flight part.now self.old.kept self.new.kept) }
        ensures err { IfErr result (StopsSaid command part.now) }
        ensures setting { self.new.setting ≡ self.old.setting }
        ensures outs { self.new.outs ≡ self.old.outs }
    {
        let reply = reply_in(command, part)?;
        if is_first(&self.state.flights, &flight) {
            let waiting = self.state.early.len();
            self.go(&flight, &reply);
            self.turn_all(waiting);
            return Ok(());
        }
        match self.state.early.push((flight.mid, reply)) {
            Ok(()) => Ok(()),
            Err(_) => Err(CoreFault::NoMemory),
        }
    }

    // A request is answered, in its turn.
    fn go(&mut self, flight: &Flight, reply: &Rep)
        ensures kept { self.new.kept ≡ gone self.old.setting.options flight.now reply.now self.old.kept }
        ensures setting { self.new.setting ≡ self.old.setting }
        ensures outs { self.new.outs ≡ self.old.outs }
    {
        if let Some(number) = flight.owner {
            if !flight.refused {
                advance(&mut self.state.slots, number, &self.options, reply);
            }
        }
        leave(&mut self.state.flights, flight, reply);
        let_go(&mut self.state.early, flight.mid);
    }

    // So many replies at most that wait come to their turn, one after another.
    fn turn_all(&mut self, most: usize)
        ensures kept { self.new.kept ≡ turned self.old.setting.options most self.old.kept }
        ensures setting { self.new.setting ≡ self.old.setting }
        ensures outs { self.new.outs ≡ self.old.outs }
    {
        for _ in 0..most {
            if !self.turn() {
                return;
            }
        }
    }

    // The first reply that waits and whose turn it is goes to its request; whether there was one.
    fn turn(&mut self) -> bool
        ensures kept { self.new.kept ≡ turned_with self.old.setting.options (next_turn self.old.kept.flights self.old.kept.early) (λ k. k) self.old.kept }
        ensures none { result ≡ is_some (next_turn self.old.kept.flights self.old.kept.early) }
        ensures setting { self.new.setting ≡ self.old.setting }
        ensures outs { self.new.outs ≡ self.old.outs }
    {
        let mid = match next_turn(&self.state.flights, &self.state.early) {
            Some((flight, reply)) => {
                if let Some(number) = flight.owner {
                    if !flight.refused {
                        advance(&mut self.state.slots, number, &self.options, reply);
                    }
                }
                leave(&mut self.state.flights, &flight, reply);
                flight.mid
            }
            None => return false,
        };
        let_go(&mut self.state.early, mid);
        true
    }
}

// What a reply says to a request with this command.
fn reply_in(command: u16, part: &[u8]) -> Result<Rep, CoreFault>
    ensures said { IfOk result (λ reply. said_in command part.now ≡ Some reply) }
    ensures err { IfErr result (StopsSaid command part.now) }
{
    let status = match read_head(part) {
        Ok(head) => head.status,
        Err(fault) => return Err(CoreFault::Protocol(Protocol::Head(fault))),
    };
    match read_reply(command, status, part) {
        Ok(reply) => Ok(reply),
        Err(fault) => Err(fault_of_reply(fault)),
    }
}

// Why the core stops at a reply that says nothing.
fn fault_of_reply(fault: WireFault) -> CoreFault
    ensures { result ≡ wire_fault_for fault }
{
    match fault {
        WireFault::Body(why) => CoreFault::Protocol(Protocol::Body(why)),
        WireFault::Info(why) => CoreFault::Protocol(Protocol::Info(why)),
    }
}

// Why the core stops at a frame that is not taken.
fn fault_of_take(fault: TakeFault) -> CoreFault
    ensures { result ≡ fault_for fault }
{
    match fault {
        TakeFault::Malformed(Malformed::Head(why)) => CoreFault::Protocol(Protocol::Head(why)),
        TakeFault::Malformed(Malformed::Body(why)) => CoreFault::Protocol(Protocol::Body(why)),
        TakeFault::Malformed(Malformed::Chain) => CoreFault::Protocol(Protocol::Chain),
        TakeFault::Stranger(mid) => CoreFault::Protocol(Protocol::Stranger(mid)),
        TakeFault::NoMemory => CoreFault::NoMemory,
    }
}

// Why the core stops at a mount that is refused.
fn fault_of_mount(fault: MountFault) -> CoreFault
    ensures { result ≡ mount_fault_for fault }
{
    match fault {
        MountFault::Malformed(why) => CoreFault::Protocol(Protocol::Body(why)),
        MountFault::NoMemory => CoreFault::NoMemory,
        other => CoreFault::Refused(other),
    }
}
