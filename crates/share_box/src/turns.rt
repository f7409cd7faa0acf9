//! The turns of a box: which one is next, and what it does.

ghost use Rattle.std.specs.Prelude.{◌≡◌, ◌+◌, ◌++◌, ◌∷◌, true, IfOk, OnOk, OnErr, length};
ghost use Rattle.share_state.specs.Built.{is_built};
ghost use Rattle.share_state.specs.Sent.{sent_with};
ghost use Rattle.share_box.specs.declared.schedule.Turn.TheVariants as turn;
ghost use Rattle.share_box.specs.Order.{is_next};
ghost use Rattle.share_box.specs.Serving.{is_servable, plan_of};
ghost use Rattle.share_box.specs.Turns.{may_act, is_possible, must_pass, from_possible, last_turn, turn_of, served, served_at, served_as, answered_as, act_events, share_after_act, turned, ahead_in, at_connect};
ghost use Rattle.share_box.specs.Paid.{AreProper, PaysAs};
ghost use Rattle.share_box.specs.Truth.{Keeps, TookOrNot};
ghost use Rattle.share_box.specs.Calls.{passed, gone_on, is_refused, GoesOn, Tells};

use crate::answers::reply;
use crate::delay::put_all_off;
use crate::order::waiting_ids;
use crate::schedule::Turn;
use crate::serving::{do_plan, is_servable, plan_for, request};
use crate::state::State;
use share_spec::conflicts;
use share_state::{Req, Sent, Share, Who};
use smb_base::{Mid, NoMemory};
use smb_link::{Event, EventList};
use std::alloc::Global;

// Another client may make this request now: it is one that the share takes, and no break stands against it.
fn may_act(alloc: Global, share: &Share, who: u32, r: &Req) -> Result<bool, NoMemory>
    ensures { IfOk result (λ x. x ≡ may_act share.now who r.now) }
{
    if who == 0 || !r.is_built() {
        return Ok(false);
    }
    Ok(conflicts(alloc, share, Who(who), r)?.as_slice().is_empty())
}

// A turn is possible.
fn is_possible(alloc: Global, share: &Share, turn: &Turn) -> Result<bool, NoMemory>
    ensures { IfOk result (λ x. x ≡ is_possible share.now turn.now) }
{
    match turn {
        Turn::Serve(number) => is_servable(alloc, share, *number),
        Turn::Act(who, r) => may_act(alloc, share, *who, r),
        Turn::Cut => Ok(true),
        Turn::Quiet => Ok(true),
        Turn::DropAll => Ok(true),
        Turn::RefuseConnect => Ok(false),
    }
}

// The next turn of the list is there and not possible.
fn is_passed_over(alloc: Global, b: &State) -> Result<bool, NoMemory>
    ensures { IfOk result (λ x. x ≡ must_pass b.now.share b.now.turns) }
{
    match b.turns.front() {
        Some(turn) => Ok(!is_possible(alloc, &b.share, turn)?),
        None => Ok(false),
    }
}

// Passes over the turns that are not possible.
#[tactic(auto, using(crate::proofs::Passing::pass_more, crate::proofs::Passing::pass_fewer, crate::proofs::Passing::pass_done))]
fn pass_over(alloc: Global, b: &mut State) -> Result<(), NoMemory>
    ensures ok { OnOk result (b.new ≡ record b.old { turns = from_possible b.old.share b.old.turns }) }
    ensures err { OnErr result (b.new ≡ record b.old { turns = b.new.turns }) }
{
    while is_passed_over(alloc, b)? {
        b.turns.pass();
    }
    Ok(())
}

// The turn at the end of the list.
fn last_turn(alloc: Global, share: &Share) -> Result<Turn, NoMemory>
    ensures exact { IfOk result (λ t. t ≡ last_turn share.now) }
    ensures possible { IfOk result (λ t. is_possible share.now t ≡ true) }
{
    if is_servable(alloc, share, 0)? {
        Ok(Turn::Serve(0))
    } else {
        Ok(Turn::Quiet)
    }
}

// Takes the next turn that is possible off.
#[tactic(auto, unfolding(crate::specs::Turns::turn_of, crate::specs::Turns::turns_after))]
pub(crate) fn next_turn(alloc: Global, b: &mut State) -> Result<Turn, NoMemory>
    ensures turn { IfOk result (λ t. t ≡ turn_of b.old) }
    ensures possible { IfOk result (λ t. is_possible b.old.share t ≡ true) }
    ensures ok { OnOk result (b.new ≡ passed b.old) }
    ensures err { OnErr result (b.new ≡ record b.old { turns = b.new.turns }) }
{
    pass_over(alloc, b)?;
    match b.turns.take() {
        Some(turn) => Ok(turn),
        None => last_turn(alloc, &b.share),
    }
}

// Serves the request with this number, of those that may be served. Those of older frames are put off first, each of them once.
fn serve_number(alloc: Global, b: &mut State, number: u32) -> Result<(), NoMemory>
    requires { is_servable b.old.share number ≡ true }
    ensures ok { OnOk result (b.new ≡ served number b.old) }
    ensures goes { GoesOn b.old b.new }
    ensures keeps { Keeps result b.old b.new }
{
    let mids = waiting_ids(alloc, b.share.sent.as_slice())?;
    let number = number as usize;
    match mids.get(number) {
        Some(mid) => {
            put_all_off(alloc, b, &mids[..number])?;
            serve_id(alloc, b, *mid)
        }
        None => Ok(()),
    }
}

// Serves the request with this id.
fn serve_id(alloc: Global, b: &mut State, mid: Mid) -> Result<(), NoMemory>
    requires { is_next (sent_with mid b.old.share.sent) b.old.share.sent ≡ true }
    ensures ok { OnOk result (b.new ≡ served_at mid b.old) }
    ensures goes { GoesOn b.old b.new }
    ensures keeps { Keeps result b.old b.new }
{
    match b.share.sent.take(mid) {
        Some(one) => serve(alloc, b, &one),
        None => Ok(()),
    }
}

// Takes a request, and does it.
fn serve(alloc: Global, b: &mut State, one: &Sent) -> Result<(), NoMemory>
    ensures ok { OnOk result (b.new ≡ served_as (plan_of one.now) one.now b.old) }
    ensures goes { GoesOn b.old b.new }
    ensures pays { OnOk result (PaysAs (plan_of one.now) one.now b.old) }
    ensures told { OnErr result (TookOrNot one.now.mid b.old b.new) }
{
    b.story.push(Event::Took(one.mid))?;
    answer(alloc, b, one)
}

// Does a request that was taken, and has its reply wait.
fn answer(alloc: Global, b: &mut State, one: &Sent) -> Result<(), NoMemory>
    ensures ok { OnOk result (b.new ≡ answered_as (plan_of one.now) one.now b.old) }
    ensures rest { b.new ≡ record b.old { share = b.new.share; waiting = b.new.waiting } }
    ensures connected { b.new.share.connected ≡ b.old.share.connected }

    // Its reply pays what is owed for it.
    ensures pays { OnOk result (PaysAs (plan_of one.now) one.now b.old) }
{
    match plan_for(alloc, one)? {
        Some(plan) => {
            let said = do_plan(alloc, &mut b.share, one, &plan)?;
            let frame = reply(alloc, b.credits, one.pended, one.message.as_slice(), &said)?;
            b.waiting.add(frame.as_slice())
        }
        None => Ok(()),
    }
}

// Does a request of another client.
fn act(
    alloc: Global,
    share: &mut Share,
    story: &mut EventList,
    who: u32,
    r: Req,
) -> Result<(), NoMemory>
    requires { is_built r ≡ true }
    ensures ok { OnOk result ((share.new ≡ share_after_act share.old who r) × (story.new ≡ story.old ++ act_events share.old who r)) }
    ensures told { Tells story.old story.new }
    ensures err { OnErr result (story.new ≡ story.old) }
    ensures connected { share.new.connected ≡ share.old.connected }
{
    let rep = request(alloc, share, who, &r)?;
    story.push(Event::Act(who, r, rep))
}

// Does a turn that is no cut.
#[tactic(auto, unfolding(crate::specs::Turns::turned))]
pub(crate) fn do_turn(alloc: Global, b: &mut State, turn: Turn) -> Result<(), NoMemory>
    requires { is_possible b.old.share turn ≡ true }
    ensures ok { OnOk result (b.new ≡ turned turn b.old) }
    ensures goes { GoesOn b.old b.new }

    // The requests that wait stay proper.
    ensures proper { OnOk result (AreProper b.old.share.sent → AreProper b.new.share.sent) }

    // It goes on in step with its story.
    ensures keeps { Keeps result b.old b.new }
{
    match turn {
        Turn::Serve(number) => serve_number(alloc, b, number),
        Turn::Act(who, r) => act(alloc, &mut b.share, &mut b.story, who, r),
        _ => Ok(()),
    }
}

/// What comes next at a connect.
#[derive(Clone, Copy)]
enum NextTurn {
    /// A turn that a connect takes.
    Turn,
    /// A refusal.
    Refusal,
    /// No turn of a connect.
    Rest,
}

// What comes next at a connect.
fn ahead_of(b: &State) -> NextTurn
    ensures { result ≡ ahead_in b.now.turns }
{
    match b.turns.front() {
        Some(Turn::Act(_, _)) => NextTurn::Turn,
        Some(Turn::DropAll) => NextTurn::Turn,
        Some(Turn::RefuseConnect) => NextTurn::Refusal,
        _ => NextTurn::Rest,
    }
}

// Does a request of another client, where it may be made.
fn try_act(alloc: Global, b: &mut State, who: u32, r: Req) -> Result<(), NoMemory>
    ensures ok { OnOk result (at_connect b.new.turns b.new.share b.new.story ≡ at_connect (turn.Act who r ∷ b.old.turns) b.old.share b.old.story) }
    ensures rest { b.new ≡ record b.old { share = b.new.share; story = b.new.story } }
    ensures goes { GoesOn b.old b.new }
    ensures keeps { Keeps result b.old b.new }
{
    if may_act(alloc, &b.share, who, &r)? {
        return act(alloc, &mut b.share, &mut b.story, who, r);
    }
    Ok(())
}

// Takes the next turn of the list, which a connect takes, and does it where it is possible.
fn turn_at_connect(alloc: Global, b: &mut State) -> Result<(), NoMemory>
    requires { ahead_in b.old.turns ≡ NextTurn.Turn }
    ensures ok { OnOk result (at_connect b.new.turns b.new.share b.new.story ≡ at_connect b.old.turns b.old.share b.old.story) }
    ensures fewer { length b.new.turns + 1 ≡ length b.old.turns }
    ensures rest { b.new ≡ record b.old { share = b.new.share; story = b.new.story; turns = b.new.turns } }
    ensures goes { GoesOn b.old b.new }
    ensures keeps { Keeps result b.old b.new }
{
    match b.turns.take() {
        Some(Turn::Act(who, r)) => try_act(alloc, b, who, r),
        _ => Ok(()),
    }
}

// Takes the turns that come before a connect, and says whether it is refused.
pub(crate) fn turns_at_connect(alloc: Global, b: &mut State) -> Result<bool, NoMemory>
    ensures refused { IfOk result (λ x. x ≡ is_refused b.old) }
    ensures ok { OnOk result (b.new ≡ gone_on b.old) }
    ensures goes { GoesOn b.old b.new }
    ensures keeps { Keeps result b.old b.new }
{
    loop {
        match ahead_of(b) {
            NextTurn::Turn => turn_at_connect(alloc, b)?,
            NextTurn::Refusal => {
                b.turns.pass();
                return Ok(true);
            }
            NextTurn::Rest => return Ok(false),
        }
    }
}
