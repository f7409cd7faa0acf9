//! One turn after another.

ghost use Rattle.std.specs.Prelude.{◌≡◌, [], Err, IfErr, OnOk};
ghost use Rattle.smb_link.specs.Came.{seen_by};
ghost use Rattle.fs_top.specs.Printing.{held_by};
ghost use Rattle.fs_top.specs.Turns.{pending_of};
ghost use Rattle.fs_top.specs.Steps.{IsReadyFor, IsReady, state_of, Gave, RanBy, EndsOver};
ghost use Rattle.fs_top.specs.Going.{outside_by, Goes, Listens};

use crate::engine::Engine;
use crate::hear::hear;
use crate::line::{Next, next_line};
use crate::output::carry_out;
use crate::run_end::End;
use fs_core::Input;
use smb_link::{Clock, Link, Sink, Source};
use std::alloc::Global;

/// Gives the client an input, and carries out what it wants done then.
pub(crate) fn take<K: Sink, L: Link>(
    alloc: Global,
    engine: &mut Engine,
    out: &mut K,
    link: &mut L,
    input: Input,
) -> Result<(), End>
    requires ready { IsReadyFor input engine.old }
    ensures gave { OnOk result (Gave input (state_of engine.old (pending_of input)) (state_of engine.new []) (seen_by L.story L.connect_faults L.cuts L.quiets link.old) (seen_by L.story L.connect_faults L.cuts L.quiets link.new) (held_by K.written K.faults K.stalls out.old) (held_by K.written K.faults K.stalls out.new)) }
    ensures ends { IfErr result (λ e. RanBy input engine.old.patience (state_of engine.old (pending_of input)) (Err e) (state_of engine.new []) (seen_by L.story L.connect_faults L.cuts L.quiets link.old) (seen_by L.story L.connect_faults L.cuts L.quiets link.new) (held_by K.written K.faults K.stalls out.old) (held_by K.written K.faults K.stalls out.new)) }
    ensures ready { OnOk result (IsReady engine.new) }
    ensures patience { engine.new.patience ≡ engine.old.patience }
    ensures ahead { (engine.new.ahead ≡ engine.old.ahead) × (engine.new.over ≡ engine.old.over) }
    ensures over { EndsOver result engine.old.over }
    ensures places { (L.places link.new ≡ L.places link.old) × (L.own_cuts link.new ≡ L.own_cuts link.old) }
{
    match engine.core.event(input) {
        Ok(()) => carry_out(alloc, engine, out, link),
        Err(fault) => Err(End::of(fault, engine.received)),
    }
}

/// Takes a turn: what the script gives, or else a reading of the clock and what is received then.
pub(crate) fn turn<S: Source, K: Sink, L: Link, C: Clock>(
    alloc: Global,
    engine: &mut Engine,
    input: &mut S,
    out: &mut K,
    link: &mut L,
    clock: &mut C,
) -> Result<(), End>
    requires ready { IsReady engine.old }
    ensures goes { Goes engine.old.patience (state_of engine.old []) engine.old.over result (state_of engine.new []) engine.new.over
        (outside_by S.left S.faults K.written K.faults K.stalls L.story L.connect_faults L.cuts L.quiets C.told engine.old.ahead input.old out.old link.old clock.old)
        (outside_by S.left S.faults K.written K.faults K.stalls L.story L.connect_faults L.cuts L.quiets C.told engine.new.ahead input.new out.new link.new clock.new) }
    ensures ready { OnOk result (IsReady engine.new) }
    ensures patience { engine.new.patience ≡ engine.old.patience }
    ensures places { (L.places link.new ≡ L.places link.old) × (L.own_cuts link.new ≡ L.own_cuts link.old) }
{
    match next_line(alloc, engine, input) {
        Ok(Next::Give(given)) => take(alloc, engine, out, link, given),
        Ok(Next::Passed) => Ok(()),
        Ok(Next::Nothing) => listen(alloc, engine, out, link, clock),
        Err(end) => Err(end),
    }
}

/// Tells the client the time, receives once, and gives the client the frame that became whole.
fn listen<K: Sink, L: Link, C: Clock>(
    alloc: Global,
    engine: &mut Engine,
    out: &mut K,
    link: &mut L,
    clock: &mut C,
) -> Result<(), End>
    requires ready { IsReady engine.old }
    ensures listens { Listens engine.old.patience (state_of engine.old []) engine.old.over result (state_of engine.new []) (seen_by L.story L.connect_faults L.cuts L.quiets link.old) (seen_by L.story L.connect_faults L.cuts L.quiets link.new) (held_by K.written K.faults K.stalls out.old) (held_by K.written K.faults K.stalls out.new) (C.told clock.old) (C.told clock.new) }
    ensures ready { OnOk result (IsReady engine.new) }
    ensures patience { engine.new.patience ≡ engine.old.patience }
    ensures ahead { (engine.new.ahead ≡ engine.old.ahead) × (engine.new.over ≡ engine.old.over) }
    ensures places { (L.places link.new ≡ L.places link.old) × (L.own_cuts link.new ≡ L.own_cuts link.old) }
{
    match take(alloc, engine, out, link, Input::Now(clock.now())) {
        Ok(()) => {}
        Err(end) => return Err(end),
    }
    match hear(engine, link) {
        Ok(Some(frame)) => take(alloc, engine, out, link, Input::Frame(frame)),
        Ok(None) => Ok(()),
        Err(end) => Err(end),
    }
}
