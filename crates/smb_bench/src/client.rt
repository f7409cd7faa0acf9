//! The client alone, with no connection and no clock: what it is told is written beside it, and what it wants done is looked at and
//! dropped.

ghost use Rattle.std.specs.Prelude.{◌≡◌, ◌+◌, ◌<◌, true, IfOk, OnOk};
ghost use Rattle.fs_core.specs.Event.{Stays, Holds, MayTake, is_connected};
ghost use Rattle.smb_bench.specs.Client.{MayBegin};

use crate::replies::{StatReplies, negotiated, set_up, tree_connected};
use anyhow::{Result, bail, ensure};
use fs_core::{Core, Input, Output};
use fs_types::{Answer, Call, Options};
use smb_base::{Bytes, Text};
use smb_le::get_u64;
use std::alloc::Global;
use std::collections::VecDeque;

/// The options of the client.
const OPTIONS: Options = Options {
    strict: true,
    mapposix: true,
    mfsymlinks: false,
    nobrl: false,
    ro: false,
    file_mode: 0o755,
    dir_mode: 0o755,
    rsize: 65_536,
    wsize: 65_536,
    closetimeo: 1,
    retries: 3,
    patience: 300,
};

/// Its own id, and what its choices are drawn from.
const SEED: [u8; 16] = [7; 16];

/// How many credits it has once the share is mounted.
const CREDITS: u16 = 512;

/// The path of each call.
const PATH: &str = "/one";

/// What a client did.
#[derive(Clone, Copy)]
pub struct Counts {
    /// How many inputs it took.
    pub events: u64,
    /// How many calls began.
    pub begun: u64,
    /// How many were answered with what is known of a file.
    pub answered: u64,
}

/// Nothing yet.
const NOTHING: Counts = Counts {
    events: 0,
    begun: 0,
    answered: 0,
};

/// A client, and what stands in for its connection.
#[derive(Drop)]
pub struct Client {
    alloc: Global,
    core: Core,
    /// The id of the first request of each frame that was sent and not answered, the oldest first.
    sent: VecDeque<u64>,
    replies: StatReplies,
    counts: Counts,
}

impl Client {
    /// The client of a mounted share, before its first call.
    pub fn mounted(alloc: Global) -> Result<Client>
        ensures { IfOk result (λ client. MayBegin 1 client.core.kept) }
    {
        let mut client = Client {
            alloc,
            core: joined_core(alloc)?,
            sent: VecDeque::new(alloc),
            replies: StatReplies::new(),
            counts: NOTHING,
        };
        client.mount()?;
        Ok(client)
    }

    // The replies of a mount come, one after another.
    fn mount(&mut self) -> Result<()>
        requires { is_connected self.old.core.kept.phase ≡ true }
        ensures { OnOk result (Holds self.old.core.kept self.new.core.kept) }
    {
        self.hear(&negotiated())?;
        self.hear(&set_up())?;
        self.hear(&tree_connected(CREDITS))?;
        self.sent.clear();
        self.counts = NOTHING;
        ensure!(self.core.mounted(), "the share is not mounted");
        Ok(())
    }

    /// Runs so many calls, each in the next of these lanes, and answers the oldest one where its lane is taken; then those that are left.
    /// What it did. There is to be a lane.
    pub fn run(&mut self, lanes: u8, many: u32) -> Result<Counts>
        requires { MayBegin 1 self.old.core.kept }
    {
        ensure!(0 < lanes, "no lane");
        self.begin_all(lanes, many)?;
        self.finish(lanes)?;
        Ok(self.counts)
    }

    // So many calls begin, each once its lane is free.
    fn begin_all(&mut self, lanes: u8, many: u32) -> Result<()>
        requires some { 0 < lanes }
        requires first { MayBegin 1 self.old.core.kept }
        ensures { OnOk result (is_connected self.new.core.kept.phase ≡ true) }
    {
        for i in 0..many {
            let lane = (i % u32::from(lanes)) as u8;
            self.free(lane)?;
            self.begin(u64::from(i) + 1, lane)?;
        }
        Ok(())
    }

    // The calls that are left are answered, at most one in each lane.
    fn finish(&mut self, lanes: u8) -> Result<()>
        requires { is_connected self.old.core.kept.phase ≡ true }
    {
        for _ in 0..lanes {
            self.answer_oldest()?;
        }
        Ok(())
    }

    // The oldest call is answered where a lane is taken.
    fn free(&mut self, lane: u8) -> Result<()>
        requires { is_connected self.old.core.kept.phase ≡ true }
        ensures { OnOk result (Holds self.old.core.kept self.new.core.kept) }
    {
        if self.core.lane_free(lane) {
            return Ok(());
        }
        self.answer_oldest()
    }

    // A call begins in a free lane.
    fn begin(&mut self, number: u64, lane: u8) -> Result<()>
        requires { MayBegin number self.old.core.kept }
        ensures { OnOk result (MayBegin (number + 1) self.new.core.kept) }
    {
        ensure!(
            self.core.mounted() && self.core.lane_free(lane),
            "the lane {lane} is not free"
        );
        let path = Text::of(self.alloc, PATH)?;
        self.take(Input::Begin(number, lane, Call::Stat(path)))?;
        self.counts.begun = self.counts.begun.saturating_add(1);
        Ok(())
    }

    // The replies of the oldest call come, where there is one.
    fn answer_oldest(&mut self) -> Result<()>
        requires { is_connected self.old.core.kept.phase ≡ true }
        ensures { OnOk result (Holds self.old.core.kept self.new.core.kept) }
    {
        match self.sent.pop_front() {
            Some(first) => {
                self.replies.address(first);
                let frame = Bytes::of(self.alloc, self.replies.as_slice())?;
                self.take(Input::Frame(frame))
            }
            None => Ok(()),
        }
    }

    // A frame comes.
    fn hear(&mut self, frame: &[u8]) -> Result<()>
        requires { is_connected self.old.core.kept.phase ≡ true }
        ensures { OnOk result (Holds self.old.core.kept self.new.core.kept) }
    {
        let frame = Bytes::of(self.alloc, frame)?;
        self.take(Input::Frame(frame))
    }

    // The client takes an input, and what it wants done then is done.
    fn take(&mut self, input: Input) -> Result<()>
        requires { MayTake input self.old.core.kept }
        ensures { OnOk result (Stays input self.old.core.kept self.new.core.kept) }
    {
        self.core.event(input)?;
        self.counts.events = self.counts.events.saturating_add(1);
        carry_out(&mut self.core, &mut self.sent, &mut self.counts)
    }
}

// A client whose connection is made, and which asked for NEGOTIATE.
fn joined_core(alloc: Global) -> Result<Core>
    ensures { IfOk result (λ core. MayBegin 1 core.kept) }
{
    let mut core = Core::new(alloc, OPTIONS, "host", "share", SEED, SEED)?;
    let _ = core.pop();
    core.event(Input::Joined)?;
    Ok(core)
}

// What the client wants done is done.
fn carry_out(core: &mut Core, sent: &mut VecDeque<u64>, counts: &mut Counts) -> Result<()>
    ensures { OnOk result (core.new.kept ≡ core.old.kept) }
{
    while let Some(output) = core.pop() {
        carry(&output, sent, counts)?;
    }
    Ok(())
}

// One thing is done: of a frame the first id is kept, and an answer is counted.
fn carry(output: &Output, sent: &mut VecDeque<u64>, counts: &mut Counts) -> Result<()> {
    match output {
        Output::Send(frame) => sent.push_back(first_id(frame.as_slice())?)?,
        Output::Answer(_, Answer::Stat(_)) => counts.answered = counts.answered.saturating_add(1),
        Output::Answer(_, _) => bail!("a call failed"),
        _ => {}
    }
    Ok(())
}

// The id of the first request of a frame, behind the four bytes of its length.
fn first_id(frame: &[u8]) -> Result<u64> {
    ensure!(36 <= frame.len(), "a frame with no header");
    Ok(get_u64(frame, 28))
}
