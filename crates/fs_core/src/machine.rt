//! The core.

ghost use Rattle.std.specs.Prelude.{◌≡◌, ◌≤◌, ◌∷◌, [], false, true, IfOk, IfSome, IfNone, IfErr, OnOk, length};
ghost use Rattle.fs_core.specs.Parts.{is_lane_free, has_flight};
ghost use Rattle.fs_core.specs.Event.{MayTake, Goes, Lives, Stays, IsFaultOf, Tells, Comes, is_apart, is_mounted};
ghost use Rattle.fs_core.specs.declared.fault.CoreFault.TheVariants as fault;
ghost use Rattle.fs_core.specs.declared.input.Input.TheVariants as input;
ghost use Rattle.fs_core.specs.Going.{with_kept, greeting_of, cut_off};
ghost use Rattle.smb_link.specs.Calls.{program_of};
ghost use Rattle.smb_mux.specs.InFlight.{start};
ghost use Rattle.fs_client.specs.May.{is_stat};
ghost use Rattle.fs_core.specs.Fits.{rest_of, IsFirst};
ghost use Rattle.fs_core.specs.Steps.{begun};
ghost use Rattle.fs_core.specs.Start.{at_start};

use crate::fault::CoreFault;
use crate::input::Input;
use crate::output::Output;
use crate::path::share_path;
use crate::phase::Phase;
use crate::slot::{Slot, is_lane_free};
use crate::stat::Stat;
use crate::state::State;
use fs_types::{Call, Options};
use smb_base::{Bytes, NoMemory, Units};
use smb_link::Mark;
use smb_mount::New;
use std::alloc::Global;
use std::collections::VecDeque;
use std::marker::Model;
use std::mem;

/// The client as a state machine.
#[derive(Drop)]
pub struct Core {
    pub(crate) alloc: Global,
    pub(crate) options: Options,
    seed: [u8; 16],
    guid: [u8; 16],
    path: Units,
    pub(crate) state: State,
    pub(crate) outs: VecDeque<Output>,
}

impl Model for Core {
    ghost use Rattle.fs_client.specs.View.{Setting};
    ghost use Rattle.fs_core.specs.Kept.{Kept, CoreValue};

    ghost Value = { CoreValue };

    ghost view = { λ c. record { setting = record { options = c.options; seed = c.seed; guid = c.guid; path = c.path }; kept = c.state; outs = c.outs.items } };
}

impl Core {
    /// The client of a run with these options, of the share `share` of the host `host`. It fails only for want of memory.
    pub fn new(
        alloc: Global,
        options: Options,
        host: &str,
        share: &str,
        guid: [u8; 16],
        seed: [u8; 16],
    ) -> Result<Core, NoMemory>
        requires host { (1 ≤ length host.now) × (length host.now ≤ 255) }
        requires share { (1 ≤ length share.now) × (length share.now ≤ 255) }
        ensures value { IfOk result (λ core. core ≡ at_start options guid seed host.now share.now) }
    {
        let path = share_path(alloc, host, share)?;
        let mount = New::new(guid, Units::of(alloc, path.as_slice())?, 0);
        let mut outs = VecDeque::new(alloc);
        outs.push_back(Output::Reconnect)?;
        Ok(Core {
            alloc,
            options,
            seed,
            guid,
            path,
            state: State::new(alloc, mount),
            outs,
        })
    }

    /// Takes an input, and puts what follows behind the outputs that were not taken yet: answers, then frames, each behind the mark that
    /// speaks of it. With the connection, at `Cut`, all outputs go that were not taken, and so does all that is under way.
    ///
    /// # Errors
    ///
    /// Why the core takes no further input (see [`CoreFault`]): the server sent what is wrong, it refused the mount, or memory ran out.
    pub fn event(&mut self, e: Input) -> Result<(), CoreFault>
        requires may { MayTake e self.old.kept }
        ensures goes { OnOk result (Goes e self.old self.new) }
        ensures lives { OnOk result (Lives self.new.kept) }
        ensures stays { OnOk result (Stays e self.old.kept self.new.kept) }
        ensures why { IfErr result (λ f. IsFaultOf e self.old f) }
    {
        match e {
            Input::Begin(number, lane, call) => self.begin(number, lane, call),
            Input::Frame(frame) => self.hear(&frame),
            Input::Cut => {
                self.cut();
                Ok(())
            }
            Input::Joined => self.join(),
            Input::Now(time) => self.tell_time(time),
            Input::End => self.end(),
        }
    }

    // A call begins, and what follows.
    fn begin(&mut self, number: u64, lane: u8, call: Call) -> Result<(), CoreFault>
        requires may { MayTake (input.Begin number lane call) self.old.kept }
        ensures goes { OnOk result (Goes (input.Begin number lane call) self.old self.new) }
        ensures lives { OnOk result (Lives self.new.kept) }
        ensures stays { OnOk result (Stays (input.Begin number lane call) self.old.kept self.new.kept) }
        ensures why { IfErr result (IsFaultOf (input.Begin number lane call) self.old) }
    {
        match self.begin_call(number, lane, call) {
            Ok(()) => self.go_on(),
            Err(fault) => Err(fault),
        }
    }

    // A frame came, and what follows.
    fn hear(&mut self, frame: &Bytes) -> Result<(), CoreFault>
        ensures goes { OnOk result (Goes (input.Frame frame.now) self.old self.new) }
        ensures lives { OnOk result (Lives self.new.kept) }
        ensures stays { OnOk result (Stays (input.Frame frame.now) self.old.kept self.new.kept) }
        ensures why { IfErr result (IsFaultOf (input.Frame frame.now) self.old) }
    {
        match self.land(frame) {
            Ok(()) => self.go_on(),
            Err(fault) => Err(fault),
        }
    }

    // A connection is made, and what follows.
    fn join(&mut self) -> Result<(), CoreFault>
        requires apart { is_apart self.old.kept.phase ≡ true }
        ensures goes { OnOk result (Goes input.Joined self.old self.new) }
        ensures lives { OnOk result (Lives self.new.kept) }
        ensures stays { OnOk result (Stays input.Joined self.old.kept self.new.kept) }
        ensures why { IfErr result (IsFaultOf input.Joined self.old) }
    {
        self.greet();
        self.go_on()
    }

    // The clock reads a time, and what follows.
    fn tell_time(&mut self, time: u64) -> Result<(), CoreFault>
        ensures goes { OnOk result (Goes (input.Now time) self.old self.new) }
        ensures lives { OnOk result (Lives self.new.kept) }
        ensures stays { OnOk result (Stays (input.Now time) self.old.kept self.new.kept) }
        ensures why { IfErr result (IsFaultOf (input.Now time) self.old) }
    {
        match self.note_time(time) {
            Ok(()) => self.go_on(),
            Err(fault) => Err(fault),
        }
    }

    // The end is said, and what follows.
    fn end(&mut self) -> Result<(), CoreFault>
        requires may { self.old.kept.ended ≡ false }
        ensures goes { OnOk result (Goes input.End self.old self.new) }
        ensures lives { OnOk result (Lives self.new.kept) }
        ensures stays { OnOk result (Stays input.End self.old.kept self.new.kept) }
        ensures why { IfErr result (IsFaultOf input.End self.old) }
    {
        match self.note_end() {
            Ok(()) => self.go_on(),
            Err(fault) => Err(fault),
        }
    }

    // A call begins.
    fn begin_call(&mut self, number: u64, lane: u8, call: Call) -> Result<(), CoreFault>
        requires may { MayTake (input.Begin number lane call) self.old.kept }
        ensures tells { OnOk result (Tells (input.Begin number lane call) self.old self.new) }
        ensures err { IfErr result (λ f. f ≡ fault.NoMemory) }
    {
        let stat = match self.stat_of(&call) {
            Ok(stat) => stat,
            Err(NoMemory) => return Err(CoreFault::NoMemory),
        };
        self.add_slot(number, lane, stat)?;
        self.put(Output::Marked(Mark::Begin(number, lane, call)))
    }

    // The stat that a call is. It fails only for want of memory.
    fn stat_of(&self, call: &Call) -> Result<Stat, NoMemory>
        requires stat { is_stat call.now ≡ true }
        ensures rest { IfOk result (λ stat. rest_of self.now.setting.options stat ≡ program_of self.now.setting.options self.now.setting.seed call.now) }
        ensures first { IfOk result (λ stat. IsFirst stat.progress) }
    {
        match call {
            Call::Stat(path) => Stat::begin(self.alloc, &self.options, path.as_str()),
            _ => unreachable!(),
        }
    }

    // The call that begins runs.
    fn add_slot(&mut self, number: u64, lane: u8, stat: Stat) -> Result<(), CoreFault>
        ensures ok { OnOk result (self.new ≡ with_kept (begun number lane stat self.old.kept) self.old) }
        ensures err { IfErr result (λ f. f ≡ fault.NoMemory) }
    {
        let slot = Slot {
            number,
            lane,
            announced: false,
            stat,
        };
        self.state.last = Some(number);
        match self.state.slots.push(slot) {
            Ok(()) => Ok(()),
            Err(_) => Err(CoreFault::NoMemory),
        }
    }

    // The connection is lost, and what it carried with it.
    fn cut(&mut self)
        ensures setting { self.new.setting ≡ self.old.setting }
        ensures outs { self.new.outs ≡ [] }
        ensures kept { self.new.kept ≡ cut_off self.old.kept }
    {
        self.outs.clear();
        self.state.slots.clear();
        self.state.flights.clear();
        self.state.early.clear();
        self.state.mux.reset();
        self.state.phase = Phase::Lost;
    }

    // A connection is made, and the mount begins on it.
    fn greet(&mut self)
        ensures { self.new ≡ with_kept (record self.old.kept { mux = start; phase = greeting_of self.old.kept.phase }) self.old }
    {
        self.state.mux.reset();
        self.state.phase = mem::replace(&mut self.state.phase, Phase::Lost).greeting();
    }

    // The clock reads a time, and the latest one is told; it never goes back.
    fn note_time(&mut self, time: u64) -> Result<(), CoreFault>
        ensures tells { OnOk result (Tells (input.Now time) self.old self.new) }
        ensures err { IfErr result (λ f. f ≡ fault.NoMemory) }
    {
        let latest = self.state.now.max(time);
        self.state.now = latest;
        self.put(Output::Marked(Mark::Now(latest)))
    }

    // The end is said.
    fn note_end(&mut self) -> Result<(), CoreFault>
        requires may { self.old.kept.ended ≡ false }
        ensures tells { OnOk result (Tells input.End self.old self.new) }
        ensures err { IfErr result (λ f. f ≡ fault.NoMemory) }
    {
        self.state.ended = true;
        self.put(Output::Marked(Mark::End))
    }

    /// The next output that is to be carried out.
    pub fn pop(&mut self) -> Option<Output>
        ensures some { IfSome result (λ o. self.old.outs ≡ o ∷ self.new.outs) }
        ensures none { IfNone result ((self.old.outs ≡ []) × (self.new.outs ≡ [])) }
        ensures kept { self.new.kept ≡ self.old.kept }
        ensures setting { self.new.setting ≡ self.old.setting }
    {
        self.outs.pop_front()
    }

    /// Whether the share was mounted.
    pub fn mounted(&self) -> bool
        ensures { result ≡ is_mounted self.now.kept.phase }
    {
        self.state.phase.is_mounted()
    }

    /// Whether no call of a lane is unanswered.
    pub fn lane_free(&self, lane: u8) -> bool
        ensures { result ≡ is_lane_free lane self.now.kept.slots }
    {
        is_lane_free(&self.state.slots, lane)
    }

    /// Whether a request was sent on this connection whose reply did not come.
    pub fn unanswered(&self) -> bool
        ensures { result ≡ has_flight self.now.kept.flights }
    {
        !self.state.flights.is_empty()
    }
}
