//! Carrying out what the client wants done.

ghost use Rattle.std.specs.Prelude.{◌≡◌, IfErr, OnOk};
ghost use Rattle.smb_link.specs.declared.mark.Mark.TheVariants as mark;
ghost use Rattle.smb_link.specs.Came.{seen_by, Came};
ghost use Rattle.smb_link.specs.Story.{story_with};
ghost use Rattle.fs_core.specs.declared.output.Output.TheVariants as output;
ghost use Rattle.fs_core.specs.Event.{is_leave};
ghost use Rattle.fs_top.specs.declared.run_end.End.TheVariants as end;
ghost use Rattle.fs_top.specs.Printing.{held_by};
ghost use Rattle.fs_top.specs.Turns.{calls_marked};
ghost use Rattle.fs_top.specs.Ends.{PrintedSo};
ghost use Rattle.fs_top.specs.Causes.{end_of_send, end_of_mark};
ghost use Rattle.fs_top.specs.Steps.{events_carried, events_told, line_carried, IsCarryEnd, RunsOn, Carried, CoreStays, AllElse, EndsOver};

use crate::engine::Engine;
use crate::line::end_by;
use crate::print::put_all;
use crate::run_end::End;
use crate::running::Running;
use fs_core::Output;
use fs_script::answer_line;
use fs_types::Answer;
use smb_base::{Bytes, NoMemory, Text};
use smb_link::{Link, LinkFail, Mark, Sink};
use std::alloc::Global;

/// Carries out all that the client wants done, in order.
pub(crate) fn carry_out<K: Sink, L: Link>(
    alloc: Global,
    engine: &mut Engine,
    out: &mut K,
    link: &mut L,
) -> Result<(), End>
    ensures carried { Carried result engine.old.core.outs engine.old.running engine.new.running (seen_by L.story L.connect_faults L.cuts L.quiets link.old) (seen_by L.story L.connect_faults L.cuts L.quiets link.new) (held_by K.written K.faults K.stalls out.old) (held_by K.written K.faults K.stalls out.new) }
    ensures core { CoreStays result engine.old.core engine.new.core }
    ensures rest { AllElse engine.old engine.new }
    ensures ends { EndsOver result engine.old.over }
    ensures places { (L.places link.new ≡ L.places link.old) × (L.own_cuts link.new ≡ L.own_cuts link.old) }
{
    while let Some(output) = engine.core.pop() {
        if leaves(&output) {
            return Err(end_by(engine.over));
        }
        match carry(alloc, &mut engine.running, out, link, output) {
            Ok(()) => {}
            Err(end) => return Err(end),
        }
    }
    Ok(())
}

/// Whether the share is left.
fn leaves(output: &Output) -> bool
    ensures { result ≡ is_leave output.now }
{
    match output {
        Output::Left => true,
        _ => false,
    }
}

/// Carries out one thing.
fn carry<K: Sink, L: Link>(
    alloc: Global,
    running: &mut Running,
    out: &mut K,
    link: &mut L,
    output: Output,
) -> Result<(), End>
    ensures came { Came (events_carried output result) (seen_by L.story L.connect_faults L.cuts L.quiets link.old) (seen_by L.story L.connect_faults L.cuts L.quiets link.new) }
    ensures printed { PrintedSo result (line_carried output result) (held_by K.written K.faults K.stalls out.old) (held_by K.written K.faults K.stalls out.new) }
    ensures why { IfErr result (IsCarryEnd output) }
    ensures running { RunsOn output result running.old running.new }
    ensures places { (L.places link.new ≡ L.places link.old) × (L.own_cuts link.new ≡ L.own_cuts link.old) }
{
    match output {
        Output::Send(frame) => send(link, &frame),
        Output::Marked(mark) => tell(link, running, &mark),
        Output::Answer(number, answer) => {
            running.end(number);
            answered(alloc, out, link, number, answer)
        }
        Output::Reconnect => Ok(()),
        Output::Left => Ok(()),
    }
}

/// Sends a frame.
fn send<L: Link>(link: &mut L, frame: &Bytes) -> Result<(), End>
    ensures came { Came (events_carried (output.Send frame.now) result) (seen_by L.story L.connect_faults L.cuts L.quiets link.old) (seen_by L.story L.connect_faults L.cuts L.quiets link.new) }
    ensures why { IfErr result (IsCarryEnd (output.Send frame.now)) }
    ensures places { (L.places link.new ≡ L.places link.old) × (L.own_cuts link.new ≡ L.own_cuts link.old) }
{
    sent_so(link.send(frame.as_slice()))
}

/// A frame that cannot be sent ends the run.
fn sent_so(sent: Result<(), LinkFail>) -> Result<(), End>
    ensures { result ≡ end_of_send sent }
{
    match sent {
        Ok(()) => Ok(()),
        Err(LinkFail::Failed) => Err(End::Cuts),
        Err(LinkFail::NoMemory) => Err(End::Memory),
    }
}

/// Puts a mark into the story, and notes the call that begins.
fn tell<L: Link>(link: &mut L, running: &mut Running, mark: &Mark) -> Result<(), End>
    ensures came { Came (events_carried (output.Marked mark.now) result) (seen_by L.story L.connect_faults L.cuts L.quiets link.old) (seen_by L.story L.connect_faults L.cuts L.quiets link.new) }
    ensures why { IfErr result (λ e. e ≡ end.Memory) }
    ensures running { OnOk result (running.new ≡ calls_marked mark.now running.old) }
    ensures places { (L.places link.new ≡ L.places link.old) × (L.own_cuts link.new ≡ L.own_cuts link.old) }
{
    match note(running, mark) {
        Ok(()) => told_so(link.mark(mark)),
        Err(NoMemory) => Err(End::Memory),
    }
}

/// A mark that cannot be told ends the run.
fn told_so(told: Result<(), NoMemory>) -> Result<(), End>
    ensures { result ≡ end_of_mark told }
{
    match told {
        Ok(()) => Ok(()),
        Err(NoMemory) => Err(End::Memory),
    }
}

/// Notes the call that begins.
fn note(running: &mut Running, mark: &Mark) -> Result<(), NoMemory>
    ensures { OnOk result (running.new ≡ calls_marked mark.now running.old) }
{
    match mark {
        Mark::Begin(number, _, _) => running.begin(*number),
        _ => Ok(()),
    }
}

/// Puts an answer into the story, and prints its line.
pub(crate) fn answered<K: Sink, L: Link>(
    alloc: Global,
    out: &mut K,
    link: &mut L,
    number: u64,
    answer: Answer,
) -> Result<(), End>
    ensures alone { L.story link.new ≡ story_with (L.story link.old) (events_carried (output.Answer number answer) result) }
    ensures came { Came (events_carried (output.Answer number answer) result) (seen_by L.story L.connect_faults L.cuts L.quiets link.old) (seen_by L.story L.connect_faults L.cuts L.quiets link.new) }
    ensures printed { PrintedSo result (line_carried (output.Answer number answer) result) (held_by K.written K.faults K.stalls out.old) (held_by K.written K.faults K.stalls out.new) }
    ensures why { IfErr result (IsCarryEnd (output.Answer number answer)) }
    ensures places { (L.places link.new ≡ L.places link.old) × (L.own_cuts link.new ≡ L.own_cuts link.old) }
{
    let line = match answer_line(alloc, number, &answer) {
        Ok(line) => line,
        Err(NoMemory) => return Err(End::Memory),
    };
    match tell_answer(link, number, answer) {
        Ok(()) => {}
        Err(end) => return Err(end),
    }
    print(out, &line)
}

/// Puts an answer into the story.
fn tell_answer<L: Link>(link: &mut L, number: u64, answer: Answer) -> Result<(), End>
    ensures alone { L.story link.new ≡ story_with (L.story link.old) (events_told (mark.Answer number answer) result) }
    ensures came { Came (events_told (mark.Answer number answer) result) (seen_by L.story L.connect_faults L.cuts L.quiets link.old) (seen_by L.story L.connect_faults L.cuts L.quiets link.new) }
    ensures why { IfErr result (λ e. e ≡ end.Memory) }
    ensures places { (L.places link.new ≡ L.places link.old) × (L.own_cuts link.new ≡ L.own_cuts link.old) }
{
    let said = Mark::Answer(number, answer);
    told_so(link.mark(&said))
}

/// Prints a line.
fn print<K: Sink>(out: &mut K, line: &Text) -> Result<(), End>
    ensures printed { PrintedSo result line.now (held_by K.written K.faults K.stalls out.old) (held_by K.written K.faults K.stalls out.new) }
    ensures why { IfErr result (λ e. e ≡ end.Sink) }
{
    if put_all(out, line.as_str().as_bytes()) {
        Ok(())
    } else {
        Err(End::Sink)
    }
}
