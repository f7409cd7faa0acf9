//! Frames of a stream that comes in pieces.

ghost use Rattle.std.specs.Prelude.{◌≡◌, ◌+◌, ◌≤◌, ◌++◌, [], ℕ, List, Some, None, length, drop, IfOk, IfErr, IfSome, IfNone, OnOk, OnErr, vec_len};
ghost use Rattle.std.specs.List.{AllByRecursion, concat, flat_map};
ghost use Rattle.smb_head.specs.declared.first.FrameFault.{FrameFault};
ghost use Rattle.smb_head.specs.Stream.{First, Whole, Partial, Bad, IsFault, first_of, fault_of, fault_in, frames_in, rest_in, lack_of, frame, IsMessage};

use crate::first::{FrameFault, first_frame, frame_lacks};
use smb_base::{Bytes, NoMemory};
use std::alloc::Global;
use std::marker::Model;

/// The bytes of a stream that came and were not given yet. A contract sees the list of them.
///
/// What is held lies in `held` from `start` on; the bytes before it were given. They are dropped once they are no fewer than those
/// after them, so that each byte is moved a bounded number of times.
#[derive(Drop)]
pub struct Frames {
    alloc: Global,
    held: Vec<u8>,
    start: usize,
}

impl Model for Frames {
    ghost use Rattle.std.specs.Prelude.{List, ℕ, ◌≤◌, drop, vec_len};

    ghost Value = { List ℕ };

    ghost view = { λ f. drop f.start f.held.items };

    ghost invariant = { λ f. f.start ≤ vec_len f.held };
}

impl Frames {
    /// No byte held. It takes no memory.
    pub fn new(alloc: Global) -> Frames
        ensures { result ≡ [] }
    {
        Frames {
            alloc,
            held: Vec::new(alloc),
            start: 0,
        }
    }

    /// Adds the next bytes of the stream.
    ///
    /// # Errors
    ///
    /// Want of memory alone; then nothing is changed.
    pub fn feed(&mut self, piece: &[u8]) -> Result<(), NoMemory>
        ensures ok { OnOk result (self.new ≡ self.old ++ piece.now) }
        ensures err { OnErr result (self.new ≡ self.old) }

        // A fault stays.
        ensures for_good { (fault : FrameFault) → first_of self.old ≡ Bad fault → first_of self.new ≡ Bad fault }
    {
        self.close_up();
        self.append(piece)?;
        Ok(())
    }

    // Drops the bytes that were given, once they are no fewer than those held.
    fn close_up(&mut self)
        ensures { self.new ≡ self.old }
    {
        if 0 < self.start && self.held.len() - self.start <= self.start {
            drop_front(&mut self.held, self.start);
            self.start = 0;
        }
    }

    fn append(&mut self, piece: &[u8]) -> Result<(), NoMemory>
        ensures ok { OnOk result (self.new ≡ self.old ++ piece.now) }
        ensures err { OnErr result (self.new ≡ self.old) }
    {
        self.held.extend_from_slice(piece)?;
        Ok(())
    }

    /// Takes the next frame off, without its first four bytes. `None` where the bytes held are less than a whole frame.
    ///
    /// # Errors
    ///
    /// `NotZero` and `TooLarge` as [`first_frame`] says; from then on the answer stays the same, whatever is fed. `NoMemory`. Each
    /// leaves everything as it was.
    pub fn next(&mut self) -> Result<Option<Bytes>, FrameFault>
        ensures whole { IfOk result (λ frame. IfSome frame (λ m. first_of self.old ≡ Whole m self.new)) }
        ensures shorter { IfOk result (λ frame. IfSome frame (λ m.
            length self.old ≡ length self.new + (4 + length m))) }
        ensures partial { IfOk result (λ frame. IfNone frame ((first_of self.old ≡ Partial) × (self.new ≡ self.old))) }
        ensures fault { IfErr result (λ fault. IsFault fault (first_of self.old)) }
        ensures err { OnErr result (self.new ≡ self.old) }
    {
        let (taken, frame) = match first_frame(self.pending()) {
            Err(fault) => return Err(fault),
            Ok(None) => return Ok(None),
            Ok(Some(frame)) => match Bytes::of(self.alloc, frame) {
                Err(_) => return Err(FrameFault::NoMemory),
                Ok(copy) => (4 + frame.len(), copy),
            },
        };
        self.start += taken;
        Ok(Some(frame))
    }

    /// The fault that `next` answers from now on, if there is one. It takes no memory.
    pub fn fault(&self) -> Option<FrameFault>
        ensures { result ≡ fault_of (first_of self.now) }
    {
        match first_frame(self.pending()) {
            Ok(_) => None,
            Err(fault) => Some(fault),
        }
    }

    // The bytes held.
    fn pending(&self) -> &[u8]
        ensures { result.now ≡ self.now }
    {
        &self.held[self.start..]
    }

    /// How many bytes are missing until `next` has a frame or a fault to give: 4 less those held while there are fewer than 4, and
    /// from then on the rest of the frame at hand. 0 where it has one. It takes no memory.
    pub fn lacks(&self) -> usize
        ensures { result ≡ lack_of self.now }
    {
        frame_lacks(self.pending())
    }
}

// Drops the first bytes of a vector, and moves the others to the front.
fn drop_front(held: &mut Vec<u8>, count: usize)
    requires { count ≤ vec_len held.old }
    ensures { held.new.items ≡ drop count held.old.items }
{
    let len = held.len();
    held.copy_within(count..len, 0);
    held.truncate(len - count);
}

/// What a stream was: its frames, each without its first four bytes, and the fault that ended it, if there was one.
#[derive(Debug, Drop)]
pub struct Received {
    /// The frames, in order.
    pub frames: Vec<Bytes>,
    /// `NotZero` or `TooLarge`.
    pub fault: Option<FrameFault>,
}

/// The frames of a stream that comes in these pieces. It is the same for every cutting of the same bytes.
///
/// # Errors
///
/// Want of memory alone.
pub fn frames_of(alloc: Global, pieces: &[Bytes]) -> Result<Received, NoMemory>
    ensures frames { IfOk result (λ r. r.frames.items ≡ frames_in (concat pieces.now)) }
    ensures fault { IfOk result (λ r. r.fault ≡ fault_in (concat pieces.now)) }

    // Where messages were sent as frames, one after the other, and less than one more has come, they are these messages.
    ensures sent { IfOk result (λ r. (messages : List (List ℕ)) (rest : List ℕ)
        → AllByRecursion IsMessage messages → first_of rest ≡ Partial
        → concat pieces.now ≡ flat_map frame messages ++ rest → r.frames.items ≡ messages) }
{
    let mut held = Frames::new(alloc);
    let mut frames = Vec::new(alloc);
    for piece in pieces {
        held.feed(piece.as_slice())?;
        take_whole(&mut held, &mut frames)?;
    }
    Ok(Received {
        frames,
        fault: held.fault(),
    })
}

// Takes each whole frame off.
fn take_whole(held: &mut Frames, frames: &mut Vec<Bytes>) -> Result<(), NoMemory>
    ensures frames { OnOk result (frames.new.items ≡ frames.old.items ++ frames_in held.old) }
    ensures rest { OnOk result (held.new ≡ rest_in held.old) }
{
    loop {
        match held.next() {
            Ok(Some(frame)) => frames.push(frame)?,
            Ok(None) => return Ok(()),
            Err(FrameFault::NotZero(_)) => return Ok(()),
            Err(FrameFault::TooLarge(_)) => return Ok(()),
            Err(FrameFault::NoMemory) => return Err(NoMemory),
        }
    }
}
