//! What is received.

ghost use Rattle.std.specs.Prelude.{◌≡◌, ◌<◌, ◌≤◌, ◌+◌, ◌++◌, length, Some, None, false, IfOk, IfErr, if◌then◌else◌};
ghost use Rattle.smb_head.specs.Stream.{first_of, lack_of, Partial};
ghost use Rattle.smb_link.specs.Came.{seen_by};
ghost use Rattle.fs_top.specs.declared.run_end.End.TheVariants as end;
ghost use Rattle.fs_top.specs.Given.{is_through};
ghost use Rattle.fs_top.specs.Steps.{IsReady, Heard, TakesIn};

use crate::engine::Engine;
use crate::run_end::{End, Wrong};
use smb_base::{Bytes, NoMemory};
use smb_head::{FrameFault, Frames};
use smb_link::{Got, Link};

/// The frame with this number, counted from 1, ends a run.
pub const MAX_FRAMES: u32 = 16_777_216;

/// Receives once, and takes no byte behind the next frame. It answers the frame that became whole, where one did.
pub(crate) fn hear<L: Link>(engine: &mut Engine, link: &mut L) -> Result<Option<Bytes>, End>
    requires ready { IsReady engine.old }
    ensures heard { Heard result engine.old engine.new (seen_by L.story L.connect_faults L.cuts L.quiets link.old) (seen_by L.story L.connect_faults L.cuts L.quiets link.new) }
    ensures ready { IfOk result (λ _. IsReady engine.new) }
    ensures patience { engine.new.patience ≡ engine.old.patience }
    ensures running { engine.new.running ≡ engine.old.running }
    ensures ahead { (engine.new.ahead ≡ engine.old.ahead) × (engine.new.over ≡ engine.old.over) }
    ensures ends { IfErr result (λ e. is_through e ≡ false) }
    ensures places { (L.places link.new ≡ L.places link.old) × (L.own_cuts link.new ≡ L.own_cuts link.old) }
{
    let most = engine.frames.lacks().min(engine.room.len());
    match link.receive(&mut engine.room[..most]) {
        Got::Bytes(n) => {
            engine.silences = 0;
            take_in(&mut engine.frames, &mut engine.received, &engine.room[..n])
        }
        Got::Quiet => silent(
            engine.core.unanswered(),
            &mut engine.silences,
            engine.patience,
        ),
        Got::Closed => Err(End::Cuts),
        Got::NoMemory => Err(End::Memory),
    }
}

/// Takes a piece in, and counts the frame that became whole.
fn take_in(frames: &mut Frames, received: &mut u32, piece: &[u8]) -> Result<Option<Bytes>, End>
    requires partial { first_of frames.old ≡ Partial }
    requires room { length piece.now ≤ lack_of frames.old }
    requires few { received.old < MAX_FRAMES }
    ensures taken { TakesIn result (frames.old ++ piece.now) received.old frames.new received.new }
{
    match frames.feed(piece) {
        Ok(()) => {}
        Err(NoMemory) => return Err(End::Memory),
    }
    match frames.next() {
        Ok(Some(frame)) => counted(received, frame),
        Ok(None) => Ok(None),
        Err(FrameFault::NoMemory) => Err(End::Memory),
        Err(_) => Err(End::Frame(*received + 1, Wrong::Length)),
    }
}

/// Counts a frame, which may be one too many.
fn counted(received: &mut u32, frame: Bytes) -> Result<Option<Bytes>, End>
    requires few { received.old < MAX_FRAMES }
    ensures counted { received.new ≡ received.old + 1 }
    ensures few { IfOk result (λ whole. (whole ≡ Some frame) × (received.new < MAX_FRAMES)) }
    ensures many { IfErr result (λ e. (e ≡ end.Frames) × (received.new ≡ MAX_FRAMES)) }
{
    *received += 1;
    if *received == MAX_FRAMES {
        return Err(End::Frames);
    }
    Ok(Some(frame))
}

/// Nothing came. The client is patient, but not for ever while a request is unanswered.
fn silent(unanswered: bool, silences: &mut u32, patience: u32) -> Result<Option<Bytes>, End>
    requires patient { silences.old < patience }
    ensures counted { silences.new ≡ (if unanswered then silences.old + 1 else 0) }
    ensures borne { IfOk result (λ frame. (frame ≡ None) × (silences.new < patience)) }
    ensures end { IfErr result (λ e. (e ≡ end.Cuts) × (silences.new ≡ patience)) }
{
    if !unanswered {
        *silences = 0;
        return Ok(None);
    }
    *silences += 1;
    if *silences == patience {
        return Err(End::Cuts);
    }
    Ok(None)
}
