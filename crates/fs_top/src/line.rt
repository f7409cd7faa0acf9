//! What the script gives next.

ghost use Rattle.std.specs.Prelude.{◌≡◌, ◌++◌, ℕ, List, true, false, Option, None, Ok, IsSome, is_some, IfOk, IfErr};
ghost use Rattle.std.specs.Bool.{OnTrue};
ghost use Rattle.fs_ahead.specs.declared.asked.Asked.{Asked};
ghost use Rattle.fs_ahead.specs.Script.{Coming};
ghost use Rattle.fs_ahead.specs.Steps.{IsAhead, IsHeldOrOver};
ghost use Rattle.fs_ahead.specs.Progress.{reads_by, Progress};
ghost use Rattle.fs_core.specs.Event.{is_mounted};
ghost use Rattle.fs_top.specs.declared.run_end.End.TheVariants as end;
ghost use Rattle.fs_top.specs.Causes.{end_by};
ghost use Rattle.fs_top.specs.Steps.{last_of, IsReady, IsSame, Gives, GivesNext, MayBegin, taken_by, Passes, ScriptGives, OverBy};

use crate::engine::Engine;
use crate::run_end::End;
use crate::running::Running;
use fs_ahead::{Ahead, Asked, Over};
use fs_core::{Core, Input};
use smb_base::NoMemory;
use smb_link::Source;
use std::alloc::Global;

/// What the script gives next.
pub(crate) enum Next {
    /// An input for the client.
    Give(Input),
    /// A line that nothing comes of; the next one is read.
    Passed,
    /// Nothing now.
    Nothing,
}

/// Reads the next line where none is held, and says what the script gives. It gives nothing before the share is mounted, and nothing
/// behind its end.
pub(crate) fn next_line<S: Source>(
    alloc: Global,
    engine: &mut Engine,
    input: &mut S,
) -> Result<Next, End>
    requires ready { IsReady engine.old }
    ensures gives { IfOk result (Gives engine.new) }
    ensures same { IsSame engine.old engine.new }
    ensures only { IfErr result (λ e. e ≡ end.Memory) }
    ensures script { IfOk result (λ next. ScriptGives next engine.old.running (reads_by S.left S.faults engine.old.ahead input.old) (reads_by S.left S.faults engine.new.ahead input.new)) }
    ensures over { OverBy result engine.old.over engine.new.over engine.new.ahead }
    ensures stays { IsSome engine.old.over → (engine.new.ahead ≡ engine.old.ahead) × (input.new ≡ input.old) }
{
    if engine.over.is_some() || !engine.core.mounted() {
        return Ok(Next::Nothing);
    }
    match engine.ahead.look(alloc, input) {
        Ok(()) => Ok(give(
            &engine.core,
            &engine.running,
            &mut engine.ahead,
            &mut engine.over,
        )),
        Err(NoMemory) => Err(End::Memory),
    }
}

/// What the line that is held gives: its call, where its lane is free; and where none is held, the end.
fn give(core: &Core, running: &Running, ahead: &mut Ahead, over: &mut Option<Over>) -> Next
    requires mounted { is_mounted core.now.kept.phase ≡ true }
    requires going { (over.old ≡ None) × (core.now.kept.ended ≡ false) }
    requires ahead { IsAhead (last_of core.now.kept.last) ahead.old }
    requires ready { IsHeldOrOver ahead.old }
    ensures gives { GivesNext result core.now.kept ahead.new (is_some over.new) }
    ensures takes { (script : Option Coming) (faults : ℕ) (taken : List Asked) (left : Option (List ℕ)) (now : ℕ)
        → Progress script faults taken (record { place = ahead.old; left = left; faults = now })
        → Progress script faults (taken ++ taken_by result) (record { place = ahead.new; left = left; faults = now }) }
    ensures passed { Passes result running.now }
    ensures over { OverBy (Ok result) None over.new ahead.new }
{
    if !may_begin(core, running, ahead) {
        return Next::Nothing;
    }
    match ahead.take() {
        Some(Asked::Call(asked)) => Next::Give(Input::Begin(asked.number, asked.lane, asked.call)),
        Some(Asked::Wait) => Next::Passed,
        None => {
            *over = ahead.over();
            Next::Give(Input::End)
        }
    }
}

/// Whether the line that is held may begin: a call where its lane is free, a pause where no call runs.
fn may_begin(core: &Core, running: &Running, ahead: &Ahead) -> bool
    ensures { OnTrue result (MayBegin core.now.kept running.now ahead.now.held) }
{
    match ahead.held() {
        Some(Asked::Call(asked)) => core.lane_free(asked.lane),
        Some(Asked::Wait) => running.as_slice().is_empty(),
        None => true,
    }
}

/// How a run ends whose script is over.
pub(crate) fn end_by(over: Option<Over>) -> End
    ensures { result ≡ end_by over }
{
    match over {
        Some(Over::End) => End::Done,
        Some(Over::Line(number)) => End::Line(number),
        Some(Over::Source) => End::Source,
        None => End::Memory,
    }
}
