//! A run of a script.

ghost use Rattle.std.specs.Prelude.{◌≡◌, ◌≤◌, [], ◌∷◌, None, Err, OnOk, IfOk, length};
ghost use Rattle.smb_link.specs.Came.{seen_by};
ghost use Rattle.smb_link.specs.Once.{WentOnlyTo};
ghost use Rattle.fs_ahead.specs.Script.{Place};
ghost use Rattle.fs_core.specs.declared.input.Input.TheVariants as core_input;
ghost use Rattle.fs_core.specs.declared.output.Output.TheVariants as output;
ghost use Rattle.fs_top.specs.Printing.{held_by};
ghost use Rattle.fs_top.specs.Steps.{IsReadyFor, IsReady, state_of};
ghost use Rattle.fs_top.specs.Going.{outside_by, Goes};
ghost use Rattle.fs_top.specs.Connects.{CutsOnce};
ghost use Rattle.fs_top.specs.Running.{first_place, Begins, RanThrough, RanScript};
ghost use Rattle.fs_top.specs.Run.{core_of, joined_with, tries_of, run_options};

use crate::close::close_off;
use crate::engine::Engine;
use crate::join::join;
use crate::options::OPTIONS;
use crate::run_end::End;
use crate::turn::{take, turn};
use fs_core::{Core, Input};
use smb_base::NoMemory;
use smb_link::{Clock, Link, Sink, Source};
use std::alloc::Global;

/// Runs the calls of a script on a share: it connects and mounts, answers each line's call and prints the answer, and leaves the share.
pub(crate) fn run_script<S: Source, K: Sink, L: Link, C: Clock>(
    alloc: Global,
    input: &mut S,
    out: &mut K,
    link: &mut L,
    clock: &mut C,
    host: &str,
    port: u16,
    share: &str,
    seed: [u8; 16],
) -> End
    requires host { (1 ≤ length host.now) × (length host.now ≤ 255) }
    requires share { (1 ≤ length share.now) × (length share.now ≤ 255) }
    ensures runs { (place : Place) × RanScript (tries_of run_options) run_options.patience (L.stands link.old) (joined_with (core_of seed host.now share.now)) result
        (outside_by S.left S.faults K.written K.faults K.stalls L.story L.connect_faults L.cuts L.quiets C.told first_place input.old out.old link.old clock.old)
        (outside_by S.left S.faults K.written K.faults K.stalls L.story L.connect_faults L.cuts L.quiets C.told place input.new out.new link.new clock.new) }
    ensures places { WentOnlyTo (record { host = host.now; port = port }) (L.places link.old) (L.places link.new) }
    ensures own_cuts { CutsOnce (L.stands link.old) (L.own_cuts link.old) (L.own_cuts link.new) }
{
    let mut engine = match start(alloc, host, share, seed) {
        Ok(engine) => engine,
        Err(NoMemory) => return End::Memory,
    };
    let tries = OPTIONS.retries + 1;
    let end = run_through(
        alloc,
        &mut engine,
        input,
        out,
        link,
        clock,
        host,
        port,
        tries,
    );
    close_off(alloc, &engine.running, out, link, end)
}

/// What the engine has before the first input, its wish for a connection taken. It fails only for want of memory.
fn start(alloc: Global, host: &str, share: &str, seed: [u8; 16]) -> Result<Engine, NoMemory>
    requires host { (1 ≤ length host.now) × (length host.now ≤ 255) }
    requires share { (1 ≤ length share.now) × (length share.now ≤ 255) }
    ensures state { IfOk result (λ e. state_of e [] ≡ joined_with (core_of seed host.now share.now)) }
    ensures ready { IfOk result (IsReadyFor core_input.Joined) }
    ensures fresh { IfOk result (λ e. (e.over ≡ None) × (e.ahead ≡ first_place) × (e.patience ≡ run_options.patience)) }
{
    let mut core = match Core::new(alloc, OPTIONS, host, share, seed, seed) {
        Ok(core) => core,
        Err(NoMemory) => return Err(NoMemory),
    };
    take_wish(&mut core);
    Ok(Engine::new(alloc, core, OPTIONS.patience))
}

/// Takes off the wish for a connection that a client begins with.
fn take_wish(core: &mut Core)
    requires wishes { core.old.outs ≡ output.Reconnect ∷ [] }
    ensures taken { core.new ≡ record core.old { outs = [] } }
{
    let _ = core.pop();
}

/// The same for a client that asks for a connection, but for the calls that are left unanswered.
fn run_through<S: Source, K: Sink, L: Link, C: Clock>(
    alloc: Global,
    engine: &mut Engine,
    input: &mut S,
    out: &mut K,
    link: &mut L,
    clock: &mut C,
    host: &str,
    port: u16,
    tries: u32,
) -> End
    requires some { 1 ≤ tries }
    requires ready { IsReadyFor core_input.Joined engine.old }
    requires fresh { engine.old.over ≡ None }
    ensures through { RanThrough tries engine.old.patience (L.stands link.old) (state_of engine.old []) result (state_of engine.new []) engine.new.over
        (outside_by S.left S.faults K.written K.faults K.stalls L.story L.connect_faults L.cuts L.quiets C.told engine.old.ahead input.old out.old link.old clock.old)
        (outside_by S.left S.faults K.written K.faults K.stalls L.story L.connect_faults L.cuts L.quiets C.told engine.new.ahead input.new out.new link.new clock.new) }
    ensures places { WentOnlyTo (record { host = host.now; port = port }) (L.places link.old) (L.places link.new) }
    ensures own_cuts { CutsOnce (L.stands link.old) (L.own_cuts link.old) (L.own_cuts link.new) }
{
    match begin(alloc, engine, out, link, host, port, tries) {
        Ok(()) => go_on(alloc, engine, input, out, link, clock),
        Err(end) => end,
    }
}

/// Makes the connection that the client asks for.
fn begin<K: Sink, L: Link>(
    alloc: Global,
    engine: &mut Engine,
    out: &mut K,
    link: &mut L,
    host: &str,
    port: u16,
    tries: u32,
) -> Result<(), End>
    requires some { 1 ≤ tries }
    requires ready { IsReadyFor core_input.Joined engine.old }
    requires fresh { engine.old.over ≡ None }
    ensures begins { Begins tries engine.old.patience (L.stands link.old) (state_of engine.old []) result (state_of engine.new []) (seen_by L.story L.connect_faults L.cuts L.quiets link.old) (seen_by L.story L.connect_faults L.cuts L.quiets link.new) (held_by K.written K.faults K.stalls out.old) (held_by K.written K.faults K.stalls out.new) }
    ensures ready { OnOk result (IsReady engine.new) }
    ensures patience { engine.new.patience ≡ engine.old.patience }
    ensures ahead { (engine.new.ahead ≡ engine.old.ahead) × (engine.new.over ≡ engine.old.over) }
    ensures places { WentOnlyTo (record { host = host.now; port = port }) (L.places link.old) (L.places link.new) }
    ensures own_cuts { CutsOnce (L.stands link.old) (L.own_cuts link.old) (L.own_cuts link.new) }
{
    match join(link, host, port, tries) {
        Ok(()) => take(alloc, engine, out, link, Input::Joined),
        Err(end) => Err(end),
    }
}

/// Takes turns until the run ends.
fn go_on<S: Source, K: Sink, L: Link, C: Clock>(
    alloc: Global,
    engine: &mut Engine,
    input: &mut S,
    out: &mut K,
    link: &mut L,
    clock: &mut C,
) -> End
    requires ready { IsReady engine.old }
    ensures goes { Goes engine.old.patience (state_of engine.old []) engine.old.over (Err result) (state_of engine.new []) engine.new.over
        (outside_by S.left S.faults K.written K.faults K.stalls L.story L.connect_faults L.cuts L.quiets C.told engine.old.ahead input.old out.old link.old clock.old)
        (outside_by S.left S.faults K.written K.faults K.stalls L.story L.connect_faults L.cuts L.quiets C.told engine.new.ahead input.new out.new link.new clock.new) }
    ensures places { (L.places link.new ≡ L.places link.old) × (L.own_cuts link.new ≡ L.own_cuts link.old) }
{
    for _turn in 0..u64::MAX {
        match turn(alloc, engine, input, out, link, clock) {
            Ok(()) => {}
            Err(end) => return end,
        }
    }
    End::Memory
}
