//! Requests in flight, and frames that no server sends.

ghost use Rattle.std.specs.Prelude.{◌≡◌, ◌+◌, ◌<◌, IfOk};

use anyhow::{Result, bail, ensure};
use smb_base::Bytes;
use smb_le::{put_u16, put_u32, put_u64};
use smb_mux::{Mux, Request, TakeFault, frame_len};
use std::alloc::Global;

/// The command ECHO (MS-SMB2 2.2.28).
const ECHO: u16 = 13;

/// How many commands there are, from 0 on, and the structure size that the reply to each has (MS-SMB2 2.2).
const COMMANDS: u16 = 19;

const SIZES: [u8; 19] = [
    65, 9, 4, 16, 4, 89, 60, 4, 17, 17, 4, 49, 4, 4, 9, 9, 9, 2, 36,
];

/// How frames were answered.
#[derive(Clone, Copy, Debug)]
pub struct Answers {
    /// They brought what they said.
    pub taken: u32,
    /// A message was wrong.
    pub malformed: u32,
    /// A message answered no request in flight.
    pub strangers: u32,
}

// Puts one request of this command in flight.
fn submit(alloc: Global, mux: &mut Mux, command: u16) -> Result<()> {
    let requests = [Request {
        command,
        charge: 1,
        related: false,
        tree: 1,
        session: 1,
        body: Bytes::of(alloc, &[4, 0, 0, 0])?,
    }];
    ensure!(frame_len(&requests).is_some(), "a frame that is too long");
    mux.submit(&requests)?;
    Ok(())
}

// The reply to the ECHO with this id, which grants so many credits.
fn echoed(mid: u64, credits: u16) -> [u8; 68] {
    let mut bytes = [0u8; 68];
    put_u32(&mut bytes, 0, 0x424D_53FE);
    put_u16(&mut bytes, 4, 64);
    put_u16(&mut bytes, 12, ECHO);
    put_u16(&mut bytes, 14, credits);
    put_u32(&mut bytes, 16, 1);
    put_u64(&mut bytes, 24, mid);
    put_u16(&mut bytes, 64, 4);
    bytes
}

// Takes the reply to the ECHO with this id.
fn answer(mux: &mut Mux, mid: u64, credits: u16) -> Result<()> {
    let taken = mux.take(&echoed(mid, credits))?;
    ensure!(taken.replies.as_slice().len() == 1, "not one reply");
    Ok(())
}

// A connection with ids for many requests, the next one 1.
fn connection(alloc: Global) -> Result<Mux> {
    let mut mux = Mux::new(alloc);
    submit(alloc, &mut mux, ECHO)?;
    answer(&mut mux, 0, u16::MAX)?;
    Ok(mux)
}

/// A connection with so many ECHOs in flight, under the ids from 1 on.
pub fn echoing(alloc: Global, many: u16) -> Result<Mux> {
    let mut mux = connection(alloc)?;
    for i in 0..many {
        submit(alloc, &mut mux, ECHO)?;
    }
    Ok(mux)
}

/// Sends so many ECHOs more, one by one, and after each takes the reply to the oldest one in flight.
pub fn exchanged(alloc: Global, mux: &mut Mux, many: u32) -> Result<u32>
    ensures { IfOk result (λ count. count ≡ many) }
{
    let mut count = 0;
    for i in 0..many {
        submit(alloc, mux, ECHO)?;
        answer(mux, u64::from(i) + 1, 1)?;
        count += 1;
    }
    Ok(count)
}

// Numbers that look random, from a seed on.
#[derive(Drop)]
struct Draws {
    state: u64,
}

impl Draws {
    // The next one, below `bound`.
    fn below(&mut self, bound: u32) -> u32
        requires { 0 < bound }
        ensures { result < bound }
    {
        self.state = self
            .state
            .wrapping_mul(6_364_136_223_846_793_005)
            .wrapping_add(1_442_695_040_888_963_407);
        (self.state >> 33) as u32 % bound
    }
}

/// Writes a byte over the one at a place, where there is one.
pub fn set(bytes: &mut [u8], at: usize, byte: u8) {
    if let Some(place) = bytes.get_mut(at) {
        *place = byte;
    }
}

// Random bytes, or what begins like a reply to one of the requests in flight, of which some bytes are others.
fn hostile_frame(alloc: Global, draws: &mut Draws) -> Result<Vec<u8>> {
    let len = draws.below(300) as usize;
    let mut frame = vec![in alloc; 0u8; len]?;
    if draws.below(4) == 0 {
        for byte in frame.iter_mut() {
            *byte = draws.below(256) as u8;
        }
        return Ok(frame);
    }
    begin_reply(&mut frame, draws);
    for i in 0..draws.below(4) {
        let at = draws.below(300) as usize;
        set(&mut frame, at, draws.below(256) as u8);
    }
    Ok(frame)
}

// The fields of a reply that are looked at.
fn begin_reply(frame: &mut [u8], draws: &mut Draws) {
    let command = draws.below(u32::from(COMMANDS));
    for (at, byte) in [(0, 0xFE), (1, 0x53), (2, 0x4D), (3, 0x42), (4, 64), (16, 1)] {
        set(frame, at, byte);
    }
    set(frame, 12, command as u8);
    set(frame, 14, draws.below(3) as u8);
    set(frame, 24, command as u8 + 1);
    if let Some(size) = SIZES.get(command as usize) {
        set(frame, 64, *size);
    }
    if draws.below(8) == 0 {
        set(frame, 8, 3);
        set(frame, 9, 1);
        set(frame, 16, 3);
        set(frame, 64, 9);
    }
    if draws.below(8) == 0 {
        set(frame, 20, draws.below(256) as u8);
    }
}

/// Takes so many frames that no server sends, and counts how they were answered.
pub fn hostile(alloc: Global, seed: u64, many: u32) -> Result<Answers>
    ensures { IfOk result (λ a. a.taken + (a.malformed + a.strangers) ≡ many) }
{
    let mut draws = Draws { state: seed };
    let mut answers = Answers {
        taken: 0,
        malformed: 0,
        strangers: 0,
    };
    let mut mux = of_all_commands(alloc)?;
    for i in 0..many {
        if i % 64 == 0 {
            mux = of_all_commands(alloc)?;
        }
        let frame = hostile_frame(alloc, &mut draws)?;
        match mux.take(&frame) {
            Ok(_) => answers.taken += 1,
            Err(TakeFault::Malformed(_)) => answers.malformed += 1,
            Err(TakeFault::Stranger(_)) => answers.strangers += 1,
            Err(TakeFault::NoMemory) => bail!("out of memory"),
        }
    }
    Ok(answers)
}

// A connection with one request of each command in flight, the id of which is one more than the command.
fn of_all_commands(alloc: Global) -> Result<Mux> {
    let mut mux = connection(alloc)?;
    for command in 0..COMMANDS {
        submit(alloc, &mut mux, command)?;
    }
    Ok(mux)
}
