//! What a request that waits comes to.

ghost use Rattle.std.specs.Prelude.{◌≡◌, true, None, IfOk, IfSome, OnErr, option_map};
ghost use Rattle.smb_head.specs.Header.{head_of};
ghost use Rattle.share_state.specs.Built.{is_built};
ghost use Rattle.share_state.specs.Reply.{of_status, map_fid};
ghost use Rattle.share_state.specs.Sent.{sent_with};
ghost use Rattle.share_state.specs.Step.{step_of};
ghost use Rattle.fs_plain.specs.World.{us, followed, is_creating, refusal_before, refused_before, resolved, came_to, after_create};
ghost use Rattle.share_box.specs.declared.bodies.Said.TheVariants as said;
ghost use Rattle.share_box.specs.Paid.{GrantsNothing};
ghost use Rattle.share_box.specs.Serving.{plan_by, plan_of, is_doable, plan_is_free, can_do, can_take, is_servable, said_under, stepped, done_by};

use crate::answers::said_aside;
use crate::bodies::Said;
use crate::order::{find, is_first_of_frame, waiting_ids};
use crate::requests::{ParsedRequest, what_is_asked};
use share_spec::{conflicts, step};
use share_state::{LastCreate, Rep, RepBody, Req, Sent, SentList, Share, Who};
use smb_base::{Fid, Mid, NoMemory, Status};
use smb_head::read_head;
use std::alloc::Global;

/// What is to be done for a request that waits.
#[derive(Drop)]
pub enum Plan {
    /// What changes nothing on the share.
    Aside,
    /// Nothing: the CREATE that it goes by was refused so.
    Refuse(Status),
    /// This on the share.
    Do(Req),
}

// What is to be done for a request that waits, if it is one that is known.
#[tactic(auto, unfolding(crate::specs::Serving::plan_of))]
pub(crate) fn plan_for(alloc: Global, one: &Sent) -> Result<Option<Plan>, NoMemory>
    ensures exact { IfOk result (λ p. p ≡ plan_of one.now) }
    ensures doable { IfOk result (λ p. IfSome p (λ x. is_doable x ≡ true)) }
{
    match what_is_asked(alloc, one.message.as_slice())? {
        Some(ParsedRequest::Aside) => Ok(Some(Plan::Aside)),
        Some(ParsedRequest::Share(related, r)) => Ok(Some(plan_by(related, one.last_create, r))),
        None => Ok(None),
    }
}

// What is to be done for a request of the share, by what the last CREATE before it came to.
fn plan_by(related: bool, last: LastCreate, r: Req) -> Plan
    requires { is_built r ≡ true }
    ensures exact { result ≡ plan_by (refused_before related last r) (resolved related last r) }
    ensures doable { is_doable result ≡ true }
{
    match refused_before(related, last, &r) {
        Some(status) => Plan::Refuse(status),
        None => Plan::Do(resolved(related, last, r)),
    }
}

// The status with which the CREATE before it refuses a request: a related one that is no CREATE itself.
fn refused_before(related: bool, last: LastCreate, r: &Req) -> Option<Status>
    ensures { option_map (λ s. s.0) result ≡ refused_before related last r.now }
{
    if related && !is_creating(r) {
        refusal_before(last)
    } else {
        None
    }
}

fn refusal_before(last: LastCreate) -> Option<Status>
    ensures { option_map (λ s. s.0) result ≡ refusal_before last }
{
    match last {
        LastCreate::Refused(status) => Some(status),
        _ => None,
    }
}

// The request that a message makes of the share: a related one takes the open of the CREATE before it.
fn resolved(related: bool, last: LastCreate, r: Req) -> Req
    requires { is_built r ≡ true }
    ensures exact { result ≡ resolved related last r }
    ensures built { is_built result ≡ true }
{
    if related { followed(last, r) } else { r }
}

fn followed(last: LastCreate, r: Req) -> Req
    requires { is_built r ≡ true }
    ensures exact { result ≡ followed last r }
    ensures built { is_built result ≡ true }
{
    match last {
        LastCreate::Opened(fid) => with_fid(fid, r),
        _ => r,
    }
}

// A request with this file id in place of its own.
fn with_fid(fid: Fid, r: Req) -> Req
    requires { is_built r ≡ true }
    ensures exact { result ≡ map_fid (λ own. fid) r }
    ensures built { is_built result ≡ true }
{
    match r {
        Req::Close { .. } => Req::Close { fid },
        Req::Query { .. } => Req::Query { fid },
        Req::Flush { .. } => Req::Flush { fid },
        Req::Room { .. } => Req::Room { fid },
        Req::Read { offset, length, .. } => Req::Read {
            fid,
            offset,
            length,
        },
        Req::Write { offset, bytes, .. } => Req::Write { fid, offset, bytes },
        Req::Lock {
            offset,
            length,
            exclusive,
            ..
        } => Req::Lock {
            fid,
            offset,
            length,
            exclusive,
        },
        Req::Unlock { offset, length, .. } => Req::Unlock {
            fid,
            offset,
            length,
        },
        Req::List {
            restart,
            length,
            ..
        } => Req::List {
            fid,
            restart,
            length,
        },
        Req::SetBasic { attributes, .. } => Req::SetBasic { fid, attributes },
        Req::SetEnd { size, .. } => Req::SetEnd { fid, size },
        Req::SetPending { on, .. } => Req::SetPending { fid, on },
        Req::Rename { replace, path, .. } => Req::Rename { fid, replace, path },
        Req::LinkTo { replace, path, .. } => Req::LinkTo { fid, replace, path },
        r => r,
    }
}

fn is_creating(r: &Req) -> bool
    ensures { result ≡ is_creating r.now }
{
    matches!(r, Req::Create { .. })
}

// No break stands against what is to be done.
fn is_free(alloc: Global, share: &Share, plan: &Plan) -> Result<bool, NoMemory>
    requires { is_doable plan.now ≡ true }
    ensures { IfOk result (λ b. b ≡ plan_is_free share.now plan.now) }
{
    match plan {
        Plan::Do(r) => Ok(conflicts(alloc, share, Who(0), r)?.as_slice().is_empty()),
        _ => Ok(true),
    }
}

// What a request asks for can be done.
fn can_do(alloc: Global, share: &Share, one: &Sent) -> Result<bool, NoMemory>
    ensures { IfOk result (λ b. b ≡ can_do share.now (plan_of one.now)) }
{
    match plan_for(alloc, one)? {
        Some(plan) => is_free(alloc, share, &plan),
        None => Ok(false),
    }
}

// The request with this id can be served.
fn can_serve(alloc: Global, share: &Share, mid: Mid) -> Result<bool, NoMemory>
    ensures { IfOk result (λ b. b ≡ can_take (sent_with mid share.now.sent) share.now) }
{
    let sent = share.sent.as_slice();
    match find(sent, mid) {
        Some(one) => Ok(is_first_of_frame(sent, one) && can_do(alloc, share, one)?),
        None => Ok(false),
    }
}

// The request with this number, of those that may be served, can be served.
#[tactic(auto, unfolding(crate::specs::Serving::is_servable))]
pub(crate) fn is_servable(alloc: Global, share: &Share, number: u32) -> Result<bool, NoMemory>
    ensures { IfOk result (λ b. b ≡ is_servable share.now number) }
{
    let mids = waiting_ids(alloc, share.sent.as_slice())?;
    match mids.get(number as usize) {
        Some(mid) => can_serve(alloc, share, *mid),
        None => Ok(false),
    }
}

// Does what is to be done, and says what the reply says.
pub(crate) fn do_plan(
    alloc: Global,
    share: &mut Share,
    one: &Sent,
    plan: &Plan,
) -> Result<Said, NoMemory>
    requires { is_doable plan.now ≡ true }
    ensures ok { IfOk result (λ said. done_by plan.now one.now share.old ≡ (said, share.new)) }
    ensures err { OnErr result (share.new ≡ share.old) }
    ensures connected { share.new.connected ≡ share.old.connected }
{
    match plan {
        Plan::Aside => Ok(said_to(one.message.as_slice())),
        Plan::Refuse(status) => Ok(said_refused(*status)),
        Plan::Do(r) => do_step(alloc, share, one.frame, r),
    }
}

// What the reply says where the CREATE before was refused so.
fn said_refused(status: Status) -> Said
    ensures { result ≡ said.Share (of_status status.0) }
{
    Said::Share(Rep {
        status,
        body: RepBody::None,
    })
}

// What the reply says to a message that changes nothing on the share.
fn said_to(message: &[u8]) -> Said
    ensures { result ≡ said_under (head_of message.now) message.now }
{
    match read_head(message) {
        Ok(head) => said_aside(head.command, message),
        Err(_) => Said::Done,
    }
}

// Does a request of a client on the share. For want of memory nothing is changed.
pub(crate) fn request(alloc: Global, share: &mut Share, who: u32, r: &Req) -> Result<Rep, NoMemory>
    requires { is_built r.now ≡ true }
    ensures ok { IfOk result (λ rep. step_of None share.old (record { 0 = who }) r.now ≡ (rep, share.new)) }
    ensures grants { IfOk result (λ rep. GrantsNothing rep.body) }
    ensures err { OnErr result (share.new ≡ share.old) }
    ensures connected { share.new.connected ≡ share.old.connected }
{
    step(alloc, share, Who(who), r)
}

// Does a request of client 0; after a CREATE the requests of its frame know what it came to.
fn do_step(alloc: Global, share: &mut Share, frame: Mid, r: &Req) -> Result<Said, NoMemory>
    requires { is_built r.now ≡ true }
    ensures ok { IfOk result (λ said. stepped frame r.now (step_of None share.old us r.now) ≡ (said, share.new)) }
    ensures err { OnErr result (share.new ≡ share.old) }
    ensures connected { share.new.connected ≡ share.old.connected }
{
    let rep = request(alloc, share, 0, r)?;
    tell(&mut share.sent, frame, r, &rep);
    Ok(Said::Share(rep))
}

// After a CREATE the requests of its frame know what it came to.
fn tell(sent: &mut SentList, frame: Mid, r: &Req, rep: &Rep)
    ensures { sent.new ≡ after_create r.now frame rep.now sent.old }
{
    if is_creating(r) {
        sent.tell_create(frame, came_to(rep));
    }
}

// What a CREATE came to.
fn came_to(rep: &Rep) -> LastCreate
    ensures { result ≡ came_to rep.now rep.now.body }
{
    match rep.body {
        RepBody::Opened { fid, .. } => LastCreate::Opened(fid),
        _ => LastCreate::Refused(rep.status),
    }
}
