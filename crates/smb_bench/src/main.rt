//! Kernels whose time matters, measured. Without a word it runs each over one MiB, or a thousand requests or calls, and prints what it did,
//! and takes a million frames that no server sends; with `times MIB` it runs each over so many MiB (1 to 1,024), or thousands of requests
//! or calls, and calls ten times as many too, and prints how long it took, beside a plain copy of the same bytes where bytes are moved.
#![tactic(auto)]

mod client;
mod frames;
mod replies;
mod requests;
mod share;

use anyhow::{Context, Result, ensure};
use client::{Client, Counts};
use frames::{copied, stream_of, through_frames};
use requests::{echoing, exchanged, hostile};
use share::{OpenFile, PIECE, listed, share_with};
use std::env;
use std::rt::{Clock, Env};
use std::time::Instant;

// The length of a frame, and that of the pieces in which it comes.
const CUTS: [(usize, usize); 4] = [
    (65_536, 1_460),
    (65_536, 65_536),
    (64, 65_536),
    (1_048_576, 1_460),
];

// How many requests are in flight.
const IN_FLIGHT: [u16; 4] = [1, 16, 256, 4_096];

// In how many lanes the calls of a client run.
const LANES: [u8; 3] = [1, 4, 16];

// How many pieces a file has that is read and written, and how many names a directory that is listed: one for the counts, more for the
// times.
const PIECES: [u32; 2] = [16, 1_024];

const NAMES: [u32; 3] = [100, 1_000, 10_000];

// How many frames that no server sends are taken, and the number that they are drawn from.
const HOSTILE: u32 = 1_000_000;

const SEED: u64 = 2026;

fn main(rt: HostRuntime) -> Result<()> {
    match mebibytes(&rt)? {
        None => counts(&rt),
        Some(mib) => times(&rt, mib),
    }
}

// The number after the word `times`, if it is there.
fn mebibytes(rt: &(impl Env + Alloc)) -> Result<Option<u32>> {
    let mut timed = false;
    let mut mib = None;
    for word in env::args(rt)? {
        if timed {
            mib = Some(word.as_str().parse::<u32>().context("the number of MiB")?);
        }
        timed = word.as_str() == "times";
    }
    Ok(mib)
}

fn counts(rt: &(impl Print + AllocGlobal)) -> Result<()> {
    for (frame, piece) in CUTS {
        let stream = stream_of(rt.alloc(), 1_048_576 / frame, frame)?;
        let length = copied(rt.alloc(), &stream, piece)?;
        let count = through_frames(rt.alloc(), &stream, piece)?;
        println!(rt;
            "frames of {frame} in pieces of {piece}: {count} frames, {length} bytes of stream"
        )?;
    }
    for many in IN_FLIGHT {
        let mut mux = echoing(rt.alloc(), many)?;
        let count = exchanged(rt.alloc(), &mut mux, 1_000)?;
        println!(rt; "{many} requests in flight: {count} more sent and answered")?;
    }
    for lanes in LANES {
        print_calls(rt, lanes, calls(rt, lanes, 1_000)?)?;
    }
    count_share(rt)?;
    let answers = hostile(rt.alloc(), SEED, HOSTILE)?;
    ensure!(
        0 < answers.taken && 0 < answers.malformed && 0 < answers.strangers,
        "the frames that no server sends are all alike"
    );
    println!(rt; "{HOSTILE} frames that no server sends: each taken, malformed or a stranger's")?;
    Ok(())
}

fn times(rt: &(impl Print + Clock + AllocGlobal), mib: u32) -> Result<()> {
    ensure!(0 < mib && mib <= 1024, "1 to 1024 MiB");
    for (frame, piece) in CUTS {
        let stream = stream_of(rt.alloc(), mib as usize * 1_048_576 / frame, frame)?;
        let start = Instant::now(rt)?;
        let length = copied(rt.alloc(), &stream, piece)?;
        let plain = start.elapsed(rt)?.as_micros();
        let start = Instant::now(rt)?;
        let count = through_frames(rt.alloc(), &stream, piece)?;
        let ours = start.elapsed(rt)?.as_micros();
        println!(rt;
            "frames of {frame} in pieces of {piece}: {count} frames, {length} bytes of stream, {} ms, plain copy {} ms, {} hundredths of it",
            ours / 1000,
            plain / 1000,
            hundredths(ours, plain)
        )?;
    }
    for many in IN_FLIGHT {
        let mut mux = echoing(rt.alloc(), many)?;
        let start = Instant::now(rt)?;
        let count = exchanged(rt.alloc(), &mut mux, mib * 1_000)?;
        let ours = start.elapsed(rt)?.as_micros();
        println!(rt;
            "{many} requests in flight: {count} more sent and answered, {} ms, {} ns each",
            ours / 1000,
            ours.saturating_mul(1000) / u128::from(count.max(1))
        )?;
    }
    for lanes in LANES {
        time_calls(rt, lanes, mib * 1_000)?;
        time_calls(rt, lanes, mib * 10_000)?;
    }
    for pieces in PIECES {
        time_file(rt, pieces, mib * 16)?;
    }
    for names in NAMES {
        time_listing(rt, names)?;
    }
    Ok(())
}

// What is read, written and listed at a share.
fn count_share(rt: &(impl Print + AllocGlobal)) -> Result<()> {
    let mut file = OpenFile::of(rt.alloc(), 16)?;
    let written = file.write(16)?;
    let read = file.read(16)?;
    println!(rt; "a file of 16 pieces of {PIECE}: {written} bytes written, {read} read")?;
    let mut share = share_with(rt.alloc(), 100)?;
    let names = listed(rt.alloc(), &mut share)?;
    println!(rt; "a directory of 100 files: {names} names")?;
    Ok(())
}

// How long it takes to write and to read so many pieces of a file.
fn time_file(rt: &(impl Print + Clock + AllocGlobal), pieces: u32, many: u32) -> Result<()> {
    let mut file = OpenFile::of(rt.alloc(), pieces)?;
    let start = Instant::now(rt)?;
    let written = file.write(many)?;
    let writing = start.elapsed(rt)?.as_micros();
    let start = Instant::now(rt)?;
    let read = file.read(many)?;
    let reading = start.elapsed(rt)?.as_micros();
    println!(rt;
        "a file of {pieces} pieces of {PIECE}: {written} bytes written in {writing} us, {read} read in {reading} us"
    )?;
    Ok(())
}

// How long it takes to list a directory of so many files.
fn time_listing(rt: &(impl Print + Clock + AllocGlobal), files: u32) -> Result<()> {
    let mut share = share_with(rt.alloc(), files)?;
    let start = Instant::now(rt)?;
    let names = listed(rt.alloc(), &mut share)?;
    let micros = start.elapsed(rt)?.as_micros();
    println!(rt; "a directory of {files} files: {names} names in {micros} us")?;
    Ok(())
}

// Mounts a share and runs so many calls of a client in so many lanes: what it did in the calls.
fn calls(rt: &impl AllocGlobal, lanes: u8, many: u32) -> Result<Counts> {
    let mut client = Client::mounted(rt.alloc())?;
    client.run(lanes, many)
}

// The same, and how many microseconds all took.
fn timed(rt: &(impl Clock + AllocGlobal), lanes: u8, many: u32) -> Result<(Counts, u128)> {
    let start = Instant::now(rt)?;
    let done = calls(rt, lanes, many)?;
    Ok((done, start.elapsed(rt)?.as_micros()))
}

// The same, printed.
fn time_calls(rt: &(impl Print + Clock + AllocGlobal), lanes: u8, many: u32) -> Result<()> {
    let (done, micros) = timed(rt, lanes, many)?;
    print_calls(rt, lanes, done)?;
    print_pace(rt, done, micros)
}

// Prints what a client did in so many lanes.
fn print_calls(rt: &impl Print, lanes: u8, done: Counts) -> Result<()> {
    let (events, begun, answered) = (done.events, done.begun, done.answered);
    println!(rt; "stats in {lanes} lanes: {begun} begun, {answered} answered, {events} events")?;
    Ok(())
}

// Prints how long that took.
fn print_pace(rt: &impl Print, done: Counts, micros: u128) -> Result<()> {
    let each = hundredths(micros, u128::from(done.answered));
    let rate = a_second(done.events, micros);
    let millis = micros / 1000;
    println!(rt;
        "  {millis} ms, {rate} events a second, {each} hundredths of a microsecond a stat"
    )?;
    Ok(())
}

// How many events a second those are that took so many microseconds.
fn a_second(events: u64, micros: u128) -> u128 {
    u128::from(events).saturating_mul(1_000_000) / micros.max(1)
}

fn hundredths(a: u128, b: u128) -> u128 {
    if b == 0 {
        return 0;
    }
    a.saturating_mul(100) / b
}
