//! The requests of a frame that the client sends.

ghost use Rattle.std.specs.Prelude.{◌≡◌, ◌≤◌, ◌++◌, ◌∷◌, [], Ok, OnOk, length};
ghost use Rattle.smb_chain.specs.Parts.{parts_of};
ghost use Rattle.fs_plain.specs.World.{mid_of, first_mid, requests_among, requests_in};

use crate::requests::what_is_asked;
use share_state::{LastCreate, Sent, SentList};
use smb_base::{Bytes, Mid, NoMemory};
use smb_chain::{first_part, split};
use smb_head::first_frame;
use smb_le::get_u64;
use std::alloc::Global;

// Adds the requests of a frame that wait. For want of memory some of them may be there.
pub(crate) fn add_requests(alloc: Global, sent: &mut SentList, frame: &[u8]) -> Result<(), NoMemory>
    ensures { OnOk result (sent.new ≡ sent.old ++ requests_in frame.now) }
{
    match first_frame(frame) {
        Ok(Some(message)) => add_message(alloc, sent, message),
        Ok(None) => Ok(()),
        Err(_) => Ok(()),
    }
}

// Adds the requests of a frame's messages. Fewer bytes than a header has hold none.
#[tactic(auto, using(crate::proofs::FrameParts::none_in_short))]
fn add_message(alloc: Global, sent: &mut SentList, message: &[u8]) -> Result<(), NoMemory>
    ensures { OnOk result (sent.new ≡ sent.old ++ requests_among (first_mid (parts_of message.now)) (parts_of message.now)) }
{
    if message.len() < 64 {
        return Ok(());
    }
    let frame = mid_of_first(message);
    add_parts(alloc, sent, frame, message)
}

// The id of the first message of a frame; 0 where its place of the next message is bad.
#[tactic(auto, using(crate::proofs::FrameParts::own_first, crate::proofs::FrameParts::first_of_bad))]
fn mid_of_first(message: &[u8]) -> Mid
    requires { 64 ≤ length message.now }
    ensures { result ≡ first_mid (parts_of message.now) }
{
    match first_part(message) {
        Ok(_) => mid_of(message),
        Err(_) => Mid(0),
    }
}

// Adds the requests among the parts of a message.
fn add_parts(alloc: Global, sent: &mut SentList, frame: Mid, message: &[u8]) -> Result<(), NoMemory>
    ensures { OnOk result (sent.new ≡ sent.old ++ requests_among frame (parts_of message.now)) }
{
    for part in split(message) {
        if let Ok(part) = part {
            add_part(alloc, sent, frame, part)?;
        }
    }
    Ok(())
}

// The id of a message.
fn mid_of(message: &[u8]) -> Mid
    requires { 64 ≤ length message.now }
    ensures { result ≡ mid_of message.now }
{
    Mid(get_u64(message, 24))
}

// Adds a part, if it asks for something.
#[tactic(auto, using(crate::proofs::FrameParts::short_asks_nothing))]
fn add_part(alloc: Global, sent: &mut SentList, frame: Mid, part: &[u8]) -> Result<(), NoMemory>
    ensures { OnOk result (sent.new ≡ sent.old ++ requests_among frame (Ok part.now ∷ [])) }
{
    if part.len() < 64 {
        return Ok(());
    }
    if what_is_asked(alloc, part)?.is_none() {
        return Ok(());
    }
    sent.push(Sent {
        mid: mid_of(part),
        frame,
        message: Bytes::of(alloc, part)?,
        pended: false,
        last_create: LastCreate::Nothing,
    })
}
