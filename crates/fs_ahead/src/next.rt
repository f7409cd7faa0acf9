//! What the next lines ask for.

ghost use Rattle.std.specs.Prelude.{◌≡◌, ◌<◌, ◌≤◌, ◌-◌, ◌^◌, IfOk, IfSome};
ghost use Rattle.smb_link.specs.Calls.{is_there};
ghost use Rattle.smb_link.specs.Count.{counted};
ghost use Rattle.fs_ahead.specs.Script.{called, wanted_at, lines_to_come};
ghost use Rattle.fs_ahead.specs.Steps.{brought, Brings, LineBrings, IsFound, IsFoundLine, IsToldAt, is_source, is_source_line, is_source_by};

use crate::asked::{Asked, Over, ScriptCall};
use fs_lines::{Lines, NextLine};
use fs_script::{Line, LineFault, read_line};
use fs_types::Call;
use smb_base::{NoMemory, Text};
use smb_link::Source;
use std::alloc::Global;

// What lines bring.
pub(crate) enum Found {
    Asked(Asked),
    Over(Over),
}

// Reads lines up to one that asks for something.
pub(crate) fn next_asked<S: Source>(
    alloc: Global,
    lines: &mut Lines,
    input: &mut S,
) -> Result<Found, NoMemory>
    ensures found { IfOk result (IsFound lines.old.number lines.new.number) }
    ensures on { lines.old.number ≤ lines.new.number }
    ensures brings { IfOk result (λ found. Brings found (lines_to_come lines.old (S.left input.old)) (lines_to_come lines.new (S.left input.new))) }
    ensures faults { S.faults input.new ≡ counted (S.faults input.old) (is_source_by is_source result) }
{
    while lines.number() < u64::MAX {
        match next_line(alloc, lines, input) {
            Ok(Some(found)) => return Ok(found),
            Ok(None) => {}
            Err(NoMemory) => return Err(NoMemory),
        }
    }
    Ok(Found::Over(Over::Line(u64::MAX)))
}

// What the next line brings; nothing where it asks for nothing.
fn next_line<S: Source>(
    alloc: Global,
    lines: &mut Lines,
    input: &mut S,
) -> Result<Option<Found>, NoMemory>
    requires { lines.old.number < 2 ^ 64 - 1 }
    ensures found { IfOk result (IsFoundLine lines.old.number lines.new.number) }
    ensures on { lines.old.number ≤ lines.new.number }
    ensures brings { IfOk result (λ found. LineBrings found (lines_to_come lines.old (S.left input.old)) (lines_to_come lines.new (S.left input.new))) }
    ensures faults { S.faults input.new ≡ counted (S.faults input.old) (is_source_by is_source_line result) }
{
    match lines.next(input) {
        NextLine::Line(text) => found_in(alloc, lines.number(), &text),
        NextLine::NotText => Ok(Some(Found::Over(Over::Line(lines.number())))),
        NextLine::TooLong => Ok(Some(Found::Over(Over::Line(lines.number())))),
        NextLine::End => Ok(Some(Found::Over(Over::End))),
        NextLine::Failed => Ok(Some(Found::Over(Over::Source))),
        NextLine::NoMemory => Err(NoMemory),
    }
}

// What a line with this number brings. The line with the greatest number is refused.
fn found_in(alloc: Global, number: u64, text: &Text) -> Result<Option<Found>, NoMemory>
    ensures at { IfOk result (λ found. IfSome found (IsToldAt number)) }
    ensures brings { IfOk result (λ found. found ≡ brought (wanted_at number text.now) number) }
{
    if number == u64::MAX {
        return Ok(Some(Found::Over(Over::Line(number))));
    }
    match read_line(alloc, text.as_str()) {
        Ok(Line::Call(lane, call)) => Ok(Some(found_call(number, lane, call))),
        Ok(Line::Wait) => Ok(Some(Found::Asked(Asked::Wait))),
        Ok(Line::Skip) => Ok(None),
        Err(LineFault::NoMemory) => Err(NoMemory),
        Err(_) => Ok(Some(Found::Over(Over::Line(number)))),
    }
}

// What the line of a call brings. A call that the client does not have is refused.
fn found_call(number: u64, lane: u8, call: Call) -> Found
    ensures at { IsToldAt number result }
    ensures brings { Some result ≡ brought (called lane call) number }
{
    if is_there(&call) {
        return Found::Asked(Asked::Call(ScriptCall { number, lane, call }));
    }
    Found::Over(Over::Line(number))
}

// The client has this call.
fn is_there(call: &Call) -> bool
    ensures { result ≡ is_there call.now }
{
    match call {
        Call::Stat(_) => true,
        _ => false,
    }
}
