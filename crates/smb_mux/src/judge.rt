//! The messages of a frame, judged one after the other.

ghost use Rattle.std.specs.Prelude.{◌≡◌, ◌<◌, length, IfOk, IfSome};
ghost use Rattle.smb_head.specs.Header.{head_of};
ghost use Rattle.smb_chain.specs.Parts.{step_of};
ghost use Rattle.smb_mux.specs.Judged.{judged, judged_from, look_of, next_of, seen_next, IsAnswer, Walks};

use crate::fault::{Malformed, TakeFault};
use crate::look::{Look, look_under};
use crate::so_far::SoFar;
use crate::taken::Taken;
use smb_chain::{BadNext, first_part};
use smb_head::read_head;
use std::alloc::Global;
use std::collections::BTreeMap;

// What a frame brings to requests in flight, or its first fault.
pub(crate) fn judge(
    alloc: Global,
    flights: &BTreeMap<u64, u16>,
    frame: &[u8],
) -> Result<Taken, TakeFault>
    ensures { IsAnswer (judged flights.now.entries frame.now) result }
{
    let mut left = frame;
    let mut so_far = SoFar::new(alloc);
    loop {
        match step(alloc, flights, so_far, left) {
            Ok((now, rest)) => match rest {
                Some(rest) => {
                    left = rest;
                    so_far = now;
                }
                None => return Ok(now.into_taken()),
            },
            Err(fault) => return Err(fault),
        }
    }
}

// Judges the first message of these bytes.
fn step<'a>(
    alloc: Global,
    flights: &BTreeMap<u64, u16>,
    so_far: SoFar,
    bytes: &'a [u8],
) -> Result<(SoFar, Option<&'a [u8]>), TakeFault>
    ensures walks { Walks flights.now.entries (judged_from flights.now.entries so_far bytes.now) result }
    ensures shorter { IfOk result (λ p. IfSome p.1 (λ rest. length rest.now < length bytes.now)) }
{
    match next_part(bytes) {
        Ok((part, rest)) => {
            let look = look_at(flights, &so_far, part);
            match so_far.with(alloc, look, part) {
                Ok(now) => Ok((now, rest)),
                Err(fault) => Err(fault),
            }
        }
        Err(fault) => Err(fault),
    }
}

// What a message is, behind those that brought this.
fn look_at(flights: &BTreeMap<u64, u16>, so_far: &SoFar, part: &[u8]) -> Look
    ensures { result ≡ look_of flights.now.entries so_far.now part.now }
{
    match read_head(part) {
        Ok(head) => look_under(&head, part, so_far.command_of(flights, head.mid)),
        Err(fault) => Look::Fault(TakeFault::Malformed(Malformed::Head(fault))),
    }
}

// The first message of these bytes, which has a header, and the bytes behind it.
fn next_part(bytes: &[u8]) -> Result<(&[u8], Option<&[u8]>), TakeFault>
    ensures exact { seen_next result ≡ next_of (head_of bytes.now) (step_of bytes.now) }
    ensures shorter { IfOk result (λ p. IfSome p.1 (λ rest. length rest.now < length bytes.now)) }
{
    match read_head(bytes) {
        Ok(_) => {}
        Err(fault) => return Err(TakeFault::Malformed(Malformed::Head(fault))),
    }
    match first_part(bytes) {
        Ok(next) => Ok(next),
        Err(BadNext) => Err(TakeFault::Malformed(Malformed::Chain)),
    }
}
