//! Frames of messages (MS-SMB2 2.1 and 2.2.1.2).

ghost use Rattle.std.specs.Prelude.{◌≡◌, IfOk, drop};

use crate::bytes::put_times;
use anyhow::{Context, Result, bail, ensure};
use std::alloc::Global;

/// The flag of a reply.
pub const REPLY: u8 = 1;

/// The flags of an interim reply: a reply of a request that goes on.
pub const INTERIM: u8 = 3;

/// The header that a row's messages begin with.
pub type Head = [u8; 64];

/// What a message says beside its row's header.
#[derive(Clone, Copy)]
pub struct Fields {
    /// Its command.
    pub command: u16,
    /// Its message id.
    pub mid: u64,
    /// Its status.
    pub status: u32,
    /// The first byte of its flags.
    pub flags: u8,
}

/// A row's header: 64 bytes.
pub fn head_of(bytes: &[u8]) -> Result<Head>
    ensures { IfOk result (λ head. head ≡ bytes.now) }
{
    ensure!(
        bytes.len() == 64,
        "a header of {} bytes, and not of 64",
        bytes.len()
    );
    let mut head = [0; 64];
    head.copy_from_slice(bytes);
    Ok(head)
}

/// The frame of a reply.
pub fn reply(alloc: Global, head: &Head, fields: Fields, body: &[u8]) -> Result<Vec<u8>> {
    let mut head = *head;
    head[8..12].copy_from_slice(&fields.status.to_le_bytes());
    frame(alloc, &with(head, fields), body)
}

/// The frame of a request, which asks for one credit.
pub fn request(alloc: Global, head: &Head, fields: Fields, body: &[u8]) -> Result<Vec<u8>> {
    let mut head = *head;
    head[14] = 1;
    head[15] = 0;
    frame(alloc, &with(head, fields), body)
}

/// A header with this command, message id and these flags.
fn with(head: Head, fields: Fields) -> Head {
    let mut head = head;
    head[12..14].copy_from_slice(&fields.command.to_le_bytes());
    head[16] = fields.flags;
    head[24..32].copy_from_slice(&fields.mid.to_le_bytes());
    head
}

/// A frame of a header and a body.
fn frame(alloc: Global, head: &Head, body: &[u8]) -> Result<Vec<u8>> {
    let mut message = Vec::from_slice(alloc, head)?;
    message.extend_from_slice(body)?;
    framed(alloc, &message)
}

/// These messages as a frame: the four bytes of its length in front.
fn framed(alloc: Global, messages: &[u8]) -> Result<Vec<u8>> {
    let len = u32::try_from(messages.len()).context("a frame that is too long")?;
    ensure!(len < 0x0100_0000, "a frame that is too long");
    let mut frame = Vec::from_slice(alloc, &len.to_be_bytes())?;
    frame.extend_from_slice(messages)?;
    Ok(frame)
}

/// The messages of these frames as one frame (MS-SMB2 3.3.4.1.3): each but the last is filled with zero bytes up to a multiple of eight,
/// and says where the next one begins.
pub fn joined(alloc: Global, frames: &[Vec<u8>]) -> Result<Vec<u8>> {
    let mut messages = Vec::new(alloc);
    for (number, frame) in frames.iter().enumerate() {
        let message = single(frame)?;
        let next = padded(message.len());
        let place = messages.len();
        messages.extend_from_slice(message)?;
        if number.saturating_add(1) < frames.len() {
            put_times(&[0], next.saturating_sub(message.len()), &mut messages)?;
            let next = u32::try_from(next).context("a message that is too long")?;
            change(&mut messages, place.saturating_add(20), &next.to_le_bytes());
        }
    }
    framed(alloc, &messages)
}

/// The message of a frame that has one message.
fn single(frame: &[u8]) -> Result<&[u8]> {
    let message = message_of(frame)?;
    ensure!(message.len() >= 64, "a message without a header");
    match message.get(20..24) {
        Some([0, 0, 0, 0]) => Ok(message),
        _ => bail!("a frame of several messages"),
    }
}

/// The next multiple of eight.
fn padded(len: usize) -> usize {
    len.saturating_add(7) / 8 * 8
}

/// The message of a frame.
pub fn message_of(frame: &[u8]) -> Result<&[u8]>
    ensures { IfOk result (λ message. message.now ≡ drop 4 frame.now) }
{
    match frame.get(4..) {
        Some(message) => Ok(message),
        None => bail!("a frame without the bytes of its length"),
    }
}

/// Changes bytes of a frame's message from this place on.
pub fn patch(frame: &mut Vec<u8>, place: usize, bytes: &[u8]) -> Result<()> {
    let end = place.saturating_add(bytes.len()).saturating_add(4);
    ensure!(end <= frame.len(), "a patch behind the end");
    change(frame, place.saturating_add(4), bytes);
    Ok(())
}

/// Changes bytes from this place on.
fn change(all: &mut Vec<u8>, place: usize, bytes: &[u8]) {
    for (old, new) in all.iter_mut().skip(place).zip(bytes) {
        *old = *new;
    }
}
