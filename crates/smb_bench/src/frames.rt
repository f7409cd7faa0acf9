//! Frames off a stream.

ghost use Rattle.std.specs.Prelude.{◌≡◌, ◌+◌, ◌-◌, ◌^◌, ◌<◌, ◌≤◌, min, length, replicate, IfOk, OnOk};
ghost use Rattle.std.specs.List.{flat_map};
ghost use Rattle.smb_head.specs.Stream.{frame, frames_in, rest_in};

use anyhow::Result;
use smb_head::{Frames, MAX_FRAME, frame_start};
use std::alloc::Global;

/// A stream of so many frames of `len` bytes, each 7.
pub fn stream_of(alloc: Global, count: usize, len: usize) -> Result<Vec<u8>>
    requires { len ≤ MAX_FRAME }
    ensures { IfOk result (λ stream. stream.items ≡ flat_map frame (replicate count (replicate len 7))) }
{
    let message = vec![in alloc; 7u8; len]?;
    let start = frame_start(len);
    let mut stream = Vec::new(alloc);
    for i in 0..count {
        stream.extend_from_slice(&start)?;
        stream.extend_from_slice(&message)?;
    }
    Ok(stream)
}

/// How many frames a stream has that is fed in pieces of this length, each frame taken as soon as it is whole.
pub fn through_frames(alloc: Global, stream: &[u8], piece: usize) -> Result<u64>
    requires { 0 < piece }
    ensures { IfOk result (λ count. count ≡ min (length (frames_in stream.now)) (2 ^ 64 - 1)) }
{
    let mut frames = Frames::new(alloc);
    let mut count = 0;
    for part in stream.chunks(piece) {
        frames.feed(part)?;
        count = take(&mut frames, count)?;
    }
    Ok(count)
}

// Takes each frame that is whole, and counts on.
fn take(frames: &mut Frames, before: u64) -> Result<u64>
    ensures count { IfOk result (λ count. count ≡ min (before + length (frames_in frames.old)) (2 ^ 64 - 1)) }
    ensures rest { OnOk result (frames.new ≡ rest_in frames.old) }
{
    let mut count = before;
    loop {
        match frames.next()? {
            Some(frame) => count = count.saturating_add(1),
            None => return Ok(count),
        }
    }
}

/// Copies a stream, in pieces of this length into one buffer, and tells how many bytes it copied.
pub fn copied(alloc: Global, stream: &[u8], piece: usize) -> Result<u64>
    requires { 0 < piece }
    ensures { IfOk result (λ count. count ≡ min (length stream.now) (2 ^ 64 - 1)) }
{
    let mut buffer = Vec::new(alloc);
    let mut count: u64 = 0;
    for part in stream.chunks(piece) {
        buffer.clear();
        buffer.extend_from_slice(part)?;
        count = count.saturating_add(buffer.len() as u64);
    }
    Ok(count)
}
