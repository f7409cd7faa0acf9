//! The messages of a frame.

ghost use Rattle.std.specs.Prelude.{◌≡◌, ◌+◌, ◌*◌, ◌^◌, ◌<◌, ◌≤◌, ◌++◌, length, IfOk, IfSome};
ghost use Rattle.smb_chain.specs.Parts.{is_bad_next, step_of, seen_step, parts_of};

use smb_le::get_u32;
use std::marker::Model;
use thiserror::Error;

/// A NextCommand that is not 0 and at which no message can begin: it is under 64, no multiple of 8, or leaves fewer than 64 bytes
/// after it.
#[derive(Clone, Copy, Debug, PartialEq, Eq, Error)]
#[error("a bad place of the next message")]
pub struct BadNext;

/// The first message of a frame (without its first four bytes), and the bytes from the next message on where there is one. A message
/// is the bytes from its header up to the next message, or to the end of the frame where its NextCommand is 0. It takes no memory.
///
/// Bytes that are no whole header, fewer than 64, are one part as they stand: the reader of heads refuses them as short. Who judges a
/// frame reads the head of what is left before each step, since a fault of a message's head goes before a bad place of the next one.
///
/// # Errors
///
/// [`BadNext`] exactly where NextCommand is bad.
#[tactic(auto, unfolding(crate::specs::Parts::step_of))]
pub fn first_part(frame: &[u8]) -> Result<(&[u8], Option<&[u8]>), BadNext>
    ensures value { seen_step result ≡ step_of frame.now }

    // A message that another follows has a header at least, so that a walk over the messages ends.
    ensures joined { IfOk result (λ p. IfSome p.1 (λ rest. p.0.now ++ rest.now ≡ frame.now)) }
    ensures shorter { IfOk result (λ p. IfSome p.1 (λ rest. 64 + length rest.now ≤ length frame.now)) }
{
    if frame.len() < 64 {
        return Ok((frame, None));
    }
    let next = get_u32(frame, 20) as usize;
    if next == 0 {
        return Ok((frame, None));
    }
    if is_bad(next, frame.len()) {
        return Err(BadNext);
    }
    let (part, rest) = frame.split_at(next);
    Ok((part, Some(rest)))
}

fn is_bad(next: usize, len: usize) -> bool
    requires { next < 2 ^ 32 }
    ensures { result ≡ is_bad_next next len }
{
    next < 64 || (next % 8 != 0 || len < next + 64)
}

/// Goes over the messages of a frame. A contract sees the list of those to come.
#[derive(Drop)]
pub struct Parts<'a> {
    left: Option<&'a [u8]>,
}

impl<'a> Model for Parts<'a> {
    ghost use Rattle.std.specs.Prelude.{List, ℕ, Result};
    ghost use Rattle.smb_chain.specs.declared.parts.BadNext.{BadNext};

    ghost Value = { List (Result (List ℕ) BadNext) };

    ghost use Rattle.smb_chain.specs.Parts.{parts_left};

    ghost view = { λ p. parts_left p.left };
}

impl<'a> Iterator for Parts<'a> {
    type Item = Result<&'a [u8], BadNext>;

    ghost use Rattle.std.specs.Iterator.{YieldsFirstBy, item_count};
    ghost use Rattle.smb_chain.specs.Parts.{seen_part};

    ghost next_gives = { YieldsFirstBy seen_part (λ s. s) };

    ghost remaining = { item_count (λ s. s) };

    #[tactic(auto, using(crate::proofs::PartLaws::iterator_steps))]
    fn next(&mut self) -> Option<Result<&'a [u8], BadNext>> {
        let frame = self.left.take()?;
        match first_part(frame) {
            Ok((part, rest)) => {
                self.left = rest;
                Some(Ok(part))
            }
            Err(bad) => Some(Err(bad)),
        }
    }
}

/// The messages of a frame (without its first four bytes) in order, each as the bytes from its header up to the next one or to the end.
/// After [`BadNext`] nothing comes. A frame of fewer than 64 bytes, also an empty one, is one part as it stands. It takes no memory.
#[tactic(auto, using(crate::proofs::PartLaws::few_parts))]
pub fn split(frame: &[u8]) -> Parts<'_>
    ensures value { result ≡ parts_of frame.now }

    // Each part but the last has a header at least.
    ensures few { 64 * length result ≤ 64 + length frame.now }
{
    Parts { left: Some(frame) }
}
