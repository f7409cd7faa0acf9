//! What a box holds, and what a turn does to it.

ghost use Rattle.std.specs.Prelude.{◌≡◌, ◌∷◌, [], ◌<◌, false, min, take, IfOk, OnOk, OnErr, length};
ghost use Rattle.smb_link.specs.declared.event.Event.TheVariants as event;
ghost use Rattle.share_state.specs.Cut.{after_join};
ghost use Rattle.share_box.specs.Paid.{AreProper};
ghost use Rattle.share_box.specs.Truth.{IsUntold};
ghost use Rattle.share_box.specs.Calls.{ended, accepted, joined, refused, given, waited, marked, GoesOn};

use crate::sending::add_requests;
use crate::waiting::{TurnsToCome, Waiting};
use share_spec::cut;
use share_state::{OwedList, SentList, Share};
use smb_base::{Bytes, NoMemory};
use smb_link::{Event, EventList, Mark};
use std::alloc::Global;

/// What a box holds.
#[derive(Drop)]
pub struct State {
    /// The room of the share, in bytes.
    pub room: u64,
    /// Its names are equal that differ in `a` to `z` against `A` to `Z` alone.
    pub fold: bool,
    /// The share, with the requests that wait.
    pub share: Share,
    /// The bytes that the client has not got yet.
    pub waiting: Waiting,
    /// The turns to come.
    pub turns: TurnsToCome,
    /// How many credits each reply grants.
    pub credits: u16,
    /// What happened so far.
    pub story: EventList,
    /// Memory ran out: each later call fails.
    pub dead: bool,
    /// How many connects failed.
    pub connect_faults: u64,
    /// How many connections ended.
    pub cuts: u64,
    /// How many receives waited in vain.
    pub quiets: u64,
}

// Ends the connection. Where the story has no memory for it, it stands as it stood: no call uses it any more.
pub(crate) fn end(alloc: Global, b: &mut State) -> Result<(), NoMemory>
    ensures ok { OnOk result (b.new ≡ ended [] b.old) }
    ensures err { OnErr result (GoesOn b.old b.new) }
    ensures untold { OnErr result (IsUntold b.old b.new) }
{
    let stood = b.share.connected;
    cut(alloc, &mut b.share)?;
    match b.story.push(Event::Cut) {
        Ok(()) => {
            b.waiting = Waiting::new(alloc);
            b.cuts = b.cuts.saturating_add(1);
            Ok(())
        }
        Err(NoMemory) => {
            b.share.connected = stood;
            Err(NoMemory)
        }
    }
}

// Makes a connection, which is empty.
pub(crate) fn join(alloc: Global, b: &mut State) -> Result<(), NoMemory>
    ensures ok { OnOk result (b.new ≡ joined b.old) }
    ensures err { OnErr result (b.new ≡ b.old) }
{
    b.story.push(Event::Joined)?;
    b.waiting = Waiting::new(alloc);
    join_share(alloc, &mut b.share);
    Ok(())
}

// The share has a new connection.
fn join_share(alloc: Global, s: &mut Share)
    ensures { s.new ≡ after_join s.old }
{
    s.connected = true;
    s.sent = SentList::new(alloc);
    s.owed = OwedList::new(alloc);
    s.held = Bytes::new(alloc);
}

// Refuses a connect.
pub(crate) fn refuse(b: &mut State) -> Result<(), NoMemory>
    ensures ok { OnOk result (b.new ≡ refused b.old) }
    ensures err { OnErr result (b.new ≡ b.old) }
{
    b.story.push(Event::NotJoined)?;
    b.connect_faults = b.connect_faults.saturating_add(1);
    Ok(())
}

// Takes a frame.
pub(crate) fn accept(alloc: Global, b: &mut State, frame: &[u8]) -> Result<(), NoMemory>
    ensures ok { OnOk result (b.new ≡ accepted frame.now b.old) }
    ensures err { OnErr result (GoesOn b.old b.new) }
    ensures untold { OnErr result (IsUntold b.old b.new) }
    ensures proper { OnOk result (AreProper b.old.share.sent → AreProper b.new.share.sent) }
{
    let copy = Bytes::of(alloc, frame)?;
    add_requests(alloc, &mut b.share.sent, frame)?;
    b.story.push(Event::Sent(copy))
}

// Loses a frame, since no connection stands.
pub(crate) fn lose(alloc: Global, b: &mut State, frame: &[u8]) -> Result<(), NoMemory>
    requires { b.old.share.connected ≡ false }
    ensures ok { OnOk result (b.new ≡ ended (event.Sent frame.now ∷ []) b.old) }
    ensures err { OnErr result (GoesOn b.old b.new) }
    ensures untold { OnErr result (IsUntold b.old b.new) }
{
    let copy = Bytes::of(alloc, frame)?;
    cut(alloc, &mut b.share)?;
    b.story.push_both(Event::Sent(copy), Event::Cut)?;
    b.waiting = Waiting::new(alloc);
    b.cuts = b.cuts.saturating_add(1);
    Ok(())
}

// Waits in vain.
pub(crate) fn wait(b: &mut State) -> Result<(), NoMemory>
    ensures ok { OnOk result (b.new ≡ waited b.old) }
    ensures err { OnErr result (b.new ≡ b.old) }
{
    b.story.push(Event::Quiet)?;
    b.quiets = b.quiets.saturating_add(1);
    Ok(())
}

// Gives what fits of the bytes that wait.
pub(crate) fn give(alloc: Global, b: &mut State, buf: &mut [u8]) -> Result<usize, NoMemory>
    requires room { 0 < length buf.old }
    requires some { 0 < length b.old.waiting }
    ensures count { IfOk result (λ n. n ≡ min (length buf.old) (length b.old.waiting)) }
    ensures bytes { IfOk result (λ n. take n buf.new ≡ take n b.old.waiting) }
    ensures ok { IfOk result (λ n. b.new ≡ given n b.old) }
    ensures err { OnErr result (b.new ≡ b.old) }
{
    let n = copy_front(b.waiting.as_slice(), buf);
    let copy = Bytes::of(alloc, &buf[..n])?;
    b.story.push(Event::Got(copy))?;
    b.waiting.advance(n);
    Ok(n)
}

// Copies as many bytes as fit into the front of the buffer.
fn copy_front(bytes: &[u8], buf: &mut [u8]) -> usize
    ensures count { result ≡ min (length buf.old) (length bytes.now) }
    ensures front { take result buf.new ≡ take result bytes.now }
{
    let n = bytes.len().min(buf.len());
    buf[..n].copy_from_slice(&bytes[..n]);
    n
}

// Puts a mark into the story. For want of memory nothing is changed.
pub(crate) fn note(alloc: Global, b: &mut State, mark: &Mark) -> Result<(), NoMemory>
    ensures ok { OnOk result (b.new ≡ marked mark.now b.old) }
    ensures err { OnErr result (b.new ≡ b.old) }
{
    let copy = mark.copied(alloc)?;
    b.story.push(Event::Marked(copy))
}
