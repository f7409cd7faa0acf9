//! Plays a row, and tells what came of it.

use crate::frames::message_of;
use crate::mount::mount;
use crate::row::{Row, Side, Step, Wanted};
use crate::says::says;
use crate::slow::Slow;
use crate::story::{connects, marks, put, sent, tell};
use anyhow::{Result, bail};
use fs_top::smbfs;
use share_box::{BoxLink, Schedule};
use smb_base::{Bytes, U64List};
use smb_chain::split;
use smb_link::{
    Event, Given, GivenList, Got, Link, LinkFail, ListLink, Mark, MemClock, MemSink, MemSource,
};
use std::alloc::Global;

/// The seed of each run, and the id of the client of each mount.
pub const SEED: [u8; 16] = [0, 1, 2, 3, 4, 5, 6, 7, 8, 9, 10, 11, 12, 13, 14, 15];

/// The most receives that one frame takes.
const RECEIVES: u32 = 100_000;

/// What came of a row, in pieces of this size, as a text of the same form as [`wanted`] has.
pub fn found(alloc: Global, row: &mut Row, size: usize) -> Result<Vec<u8>> {
    match row.side {
        Side::Peer(refused) => peer(alloc, row, refused, size),
        Side::Share(room, fold, credits) => {
            let turns = Schedule::List(row.take_turns());
            let mut link = BoxLink::new(alloc, room, fold, credits, turns)?;
            share(alloc, row, &mut link, size)
        }
        Side::Mount(previous) => {
            let path = row.path.as_str();
            mount(alloc, path, previous, &row.steps, row.wanted.requests)
        }
        Side::Says => says(alloc, &row.steps),
        Side::None => bail!("the row names no other side"),
    }
}

/// What came of a run with a peer.
fn peer(alloc: Global, row: &Row, refused: u32, size: usize) -> Result<Vec<u8>> {
    let turns = given(alloc, &row.steps, size)?;
    let mut link = ListLink::new(alloc, refused, turns);
    let (status, sink) = run(alloc, row, &mut link)?;
    report(alloc, status, &sink, link.story().as_slice(), &row.wanted)
}

/// What came of a row with a share: of a run, or of a link's use by hand.
fn share(alloc: Global, row: &Row, link: &mut BoxLink, size: usize) -> Result<Vec<u8>> {
    if row.words.is_some() {
        run_over_share(alloc, row, link)
    } else {
        use_share(alloc, &row.steps, link, size)
    }
}

/// What came of a run over a share.
fn run_over_share(alloc: Global, row: &Row, link: &mut BoxLink) -> Result<Vec<u8>> {
    let (status, sink) = run(alloc, row, link)?;
    report(alloc, status, &sink, link.story().as_slice(), &row.wanted)
}

/// The story of a share's link that takes these steps.
fn use_share(alloc: Global, steps: &Vec<Step>, link: &mut BoxLink, size: usize) -> Result<Vec<u8>> {
    take_steps(alloc, steps, link, size)?;
    let mut text = Vec::new(alloc);
    tell(alloc, link.story().as_slice(), &[], &mut text)?;
    Ok(text)
}

/// Takes these steps at a link.
fn take_steps<L: Link>(alloc: Global, steps: &Vec<Step>, link: &mut L, size: usize) -> Result<()> {
    for step in steps {
        take_step(alloc, link, step, size)?;
    }
    Ok(())
}

/// The program's run over this link: its status, and what it printed.
fn run<L: Link>(alloc: Global, row: &Row, link: &mut L) -> Result<(u8, MemSink)> {
    let Some(words) = &row.words else {
        bail!("the row has no words");
    };
    let script = Bytes::of(alloc, &row.script)?;
    let source = MemSource::new(script, copy(alloc, &row.fail_read)?);
    let mut input = Slow::new(source, row.reads);
    let mut sink = MemSink::new(alloc, copy(alloc, &row.fail_write)?);
    let mut clock = MemClock::new(copy(alloc, &row.clock)?);
    let status = smbfs(alloc, words, &mut input, &mut sink, link, &mut clock, SEED);
    Ok((status, sink))
}

fn copy(alloc: Global, numbers: &U64List) -> Result<U64List> {
    Ok(U64List::of(alloc, numbers.as_slice())?)
}

/// What a peer gives, in pieces of this size.
fn given(alloc: Global, steps: &Vec<Step>, size: usize) -> Result<GivenList> {
    let mut turns = GivenList::new(alloc);
    for step in steps {
        match step {
            Step::Got(bytes) => give(alloc, bytes, size, &mut turns)?,
            Step::Quiet => turns.push(Given::Quiet)?,
            Step::Cut => turns.push(Given::Closed)?,
            _ => bail!("a peer takes no such step"),
        }
    }
    Ok(turns)
}

/// Adds bytes in pieces of this size.
fn give(alloc: Global, bytes: &[u8], size: usize, turns: &mut GivenList) -> Result<()> {
    for piece in bytes.chunks(size.max(1)) {
        turns.push(Given::Piece(Bytes::of(alloc, piece)?))?;
    }
    Ok(())
}

/// Takes a step at a link.
fn take_step<L: Link>(alloc: Global, link: &mut L, step: &Step, size: usize) -> Result<()> {
    let done = match step {
        Step::Connect => link.connect("h", 445),
        Step::Send(bytes) => link.send(bytes),
        Step::Receive => return receive(alloc, link, size),
        Step::Over => return Ok(link.mark(&Mark::End)?),
        _ => bail!("what comes of a share is not given"),
    };
    match done {
        Err(LinkFail::NoMemory) => bail!("out of memory"),
        _ => Ok(()),
    }
}

/// Receives bytes, so many at most at a time, until a frame is whole or nothing comes.
fn receive<L: Link>(alloc: Global, link: &mut L, size: usize) -> Result<()> {
    let mut bytes = Vec::new(alloc);
    for _ in 0..RECEIVES {
        if !receive_once(alloc, link, size, &mut bytes)? || is_whole(&bytes) {
            return Ok(());
        }
    }
    bail!("a frame that does not end")
}

/// Receives bytes once, so many at most, and adds them. It answers `false` where nothing comes.
fn receive_once<L: Link>(
    alloc: Global,
    link: &mut L,
    size: usize,
    bytes: &mut Vec<u8>,
) -> Result<bool> {
    let mut buffer = vec![in alloc; 0u8; size.max(1)]?;
    match link.receive(&mut buffer) {
        Got::Bytes(count) => {
            put_front(&buffer, count, bytes)?;
            Ok(true)
        }
        Got::Quiet | Got::Closed => Ok(false),
        Got::NoMemory => bail!("out of memory"),
    }
}

/// Adds the bytes at the front of the buffer.
fn put_front(buffer: &[u8], count: usize, bytes: &mut Vec<u8>) -> Result<()> {
    match buffer.get(..count) {
        Some(front) => bytes.extend_from_slice(front)?,
        None => bail!("more bytes than there is room for"),
    }
    Ok(())
}

/// Whether these bytes are a frame, with the four bytes of its length.
fn is_whole(bytes: &[u8]) -> bool {
    match bytes {
        [first, second, third, fourth, message @ ..] => {
            let len = u32::from_be_bytes([*first, *second, *third, *fourth]);
            u64::from(len) <= message.len() as u64
        }
        _ => false,
    }
}

/// What came of a run, of what is asked for.
fn report(
    alloc: Global,
    status: u8,
    sink: &MemSink,
    events: &[Event],
    wanted: &Wanted,
) -> Result<Vec<u8>> {
    let mut text = Vec::from_slice(alloc, sink.written())?;
    if let Some(words) = &wanted.story {
        tell(alloc, events, words, &mut text)?;
    }
    if wanted.status.is_some() {
        put(&mut text, format!(in alloc; "status {status}\n")?.as_str())?;
    }
    let frames = sent(alloc, events)?;
    if wanted.sent.is_some() {
        put(&mut text, "sent")?;
        for frame in &frames {
            put_commands(alloc, &commands_of(alloc, frame)?, &mut text)?;
        }
        put(&mut text, "\n")?;
    }
    if wanted.connects.is_some() {
        put_connects(alloc, connects(events), &mut text)?;
    }
    for (number, _) in &wanted.frames {
        put_frame(alloc, *number, nth(&frames, *number), &mut text)?;
    }
    for (line, _) in &wanted.marks {
        put_marks(alloc, *line, marks(events, *line), &mut text)?;
    }
    Ok(text)
}

/// What is wanted, as a text.
pub fn wanted(alloc: Global, wanted: &Wanted) -> Result<Vec<u8>> {
    let mut text = Vec::from_slice(alloc, &wanted.text)?;
    if let Some(status) = &wanted.status {
        put(&mut text, format!(in alloc; "status {status}\n")?.as_str())?;
    }
    if let Some(frames) = &wanted.sent {
        put(&mut text, "sent")?;
        for commands in frames {
            put_commands(alloc, commands, &mut text)?;
        }
        put(&mut text, "\n")?;
    }
    if let Some(count) = &wanted.connects {
        put_connects(alloc, *count, &mut text)?;
    }
    for (number, frame) in &wanted.frames {
        put_frame(alloc, *number, frame, &mut text)?;
    }
    for (line, count) in &wanted.marks {
        put_marks(alloc, *line, *count, &mut text)?;
    }
    Ok(text)
}

/// A frame as the commands of its messages.
fn put_commands(alloc: Global, commands: &[u16], text: &mut Vec<u8>) -> Result<()> {
    for (number, command) in commands.iter().enumerate() {
        put(text, if number == 0 { " " } else { "+" })?;
        put(text, format!(in alloc; "{command}")?.as_str())?;
    }
    Ok(())
}

fn put_connects(alloc: Global, count: u64, text: &mut Vec<u8>) -> Result<()> {
    put(text, format!(in alloc; "connects {count}\n")?.as_str())
}

fn put_marks(alloc: Global, line: u64, count: u64, text: &mut Vec<u8>) -> Result<()> {
    put(text, format!(in alloc; "marks {line} {count}\n")?.as_str())
}

fn put_frame(alloc: Global, number: u64, frame: &[u8], text: &mut Vec<u8>) -> Result<()> {
    put(text, format!(in alloc; "frame {number} ")?.as_str())?;
    put(text, hex::encode_upper(alloc, frame)?.as_str())?;
    put(text, "\n")
}

/// The commands of a frame's messages.
fn commands_of(alloc: Global, frame: &[u8]) -> Result<Vec<u16>> {
    let mut commands = Vec::new(alloc);
    for part in split(message_of(frame)?) {
        match part {
            Ok(message) => commands.push(command_of(message))?,
            Err(_) => bail!("a frame that was sent with a bad place of the next message"),
        }
    }
    Ok(commands)
}

/// The command of a message; 65,535 where it is too short.
fn command_of(message: &[u8]) -> u16 {
    match message.get(12..14) {
        Some([low, high]) => u16::from_le_bytes([*low, *high]),
        _ => u16::MAX,
    }
}

/// The frame with this number, from 1 on; empty where there is none.
fn nth<'a>(frames: &Vec<&'a [u8]>, number: u64) -> &'a [u8] {
    let mut at: u64 = 0;
    for frame in frames {
        at = at.saturating_add(1);
        if at == number {
            return frame;
        }
    }
    &[]
}
