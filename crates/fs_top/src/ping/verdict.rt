//! What the messages of the first frame say.

ghost use Rattle.std.specs.Prelude.{◌≡◌, ◌&&◌, ◌==◌, ◌≤◌, List, Option, Some, None, length};
ghost use Rattle.std.specs.Option.{option_copied};
ghost use Rattle.smb_head.specs.Header.{head_of};
ghost use Rattle.smb_chain.specs.Parts.{step_of};
ghost use Rattle.fs_top.specs.Ping.Verdict.{MessageEnds, ReplyEnds, GreetingEnds, RefusalEnds, is_reply, second_kind, unless_more, answer_of, EndsWait};

use crate::ping::ending::{Ending, FirstFrameFault, Greeting};
use bitflags::Flags;
use smb_base::{Mid, Status};
use smb_body_a::{NegotiateReply, read_negotiate_reply};
use smb_body_c::read_error_reply;
use smb_chain::first_part;
use smb_head::{Head, read_head};
use smb_le::HeadFlags;

/// The dialect that is offered, SMB 2.1 (MS-SMB2 2.2.3).
pub const DIALECT: u16 = 0x0210;

/// The ending that the messages of the first frame have.
pub fn judge(message: &[u8]) -> Ending
    ensures verdict { MessageEnds message.now result }
    ensures ends_wait { EndsWait result }
{
    let head = match read_head(message) {
        Ok(head) => head,
        Err(_) => return Ending::Frame(FirstFrameFault::Head),
    };
    match first_part(message) {
        Ok((part, rest)) => judge_reply(&head, part, rest),
        Err(_) => Ending::Frame(FirstFrameFault::Chain),
    }
}

/// The ending that the first message has, with this head and this behind it.
fn judge_reply(head: &Head, part: &[u8], rest: Option<&[u8]>) -> Ending
    requires { 64 ≤ length part.now }
    ensures verdict { ReplyEnds head.now part.now (option_copied rest.entry) result }
    ensures ends_wait { EndsWait result }
{
    if head.mid != Mid(0) {
        return Ending::Frame(FirstFrameFault::Stranger);
    }
    if head.command != 0 || !head.flags.contains(HeadFlags::REPLY) {
        return Ending::Frame(FirstFrameFault::Body);
    }
    if head.status == Status::SUCCESS {
        judge_greeting(part, rest)
    } else {
        judge_refusal(part, rest)
    }
}

/// The ending that a reply of success has.
fn judge_greeting(part: &[u8], rest: Option<&[u8]>) -> Ending
    requires { 64 ≤ length part.now }
    ensures verdict { GreetingEnds part.now (option_copied rest.entry) result }
    ensures ends_wait { EndsWait result }
{
    match read_negotiate_reply(part) {
        Ok(reply) => last_unless(rest, answer(&reply)),
        Err(_) => Ending::Frame(FirstFrameFault::Body),
    }
}

/// The ending that a reply of another status has.
fn judge_refusal(part: &[u8], rest: Option<&[u8]>) -> Ending
    requires { 64 ≤ length part.now }
    ensures verdict { RefusalEnds part.now (option_copied rest.entry) result }
    ensures ends_wait { EndsWait result }
{
    match read_error_reply(part) {
        Ok(_) => last_unless(rest, Ending::Dialect(0)),
        Err(_) => Ending::Frame(FirstFrameFault::Body),
    }
}

/// The ending by the dialect of the reply.
fn answer(reply: &NegotiateReply<'_>) -> Ending
    ensures value { result ≡ answer_of reply.now }
    ensures ends_wait { EndsWait result }
{
    if reply.dialect != DIALECT {
        return Ending::Dialect(reply.dialect);
    }
    Ending::Greeted(Greeting {
        caps: reply.capabilities,
        transact: reply.max_transact,
        read: reply.max_read,
        write: reply.max_write,
        guid: reply.server_guid,
    })
}

/// This ending, unless another message follows.
fn last_unless(rest: Option<&[u8]>, ending: Ending) -> Ending
    requires { EndsWait ending }
    ensures value { result ≡ unless_more (option_copied rest.entry) ending }
    ensures ends_wait { EndsWait result }
{
    match rest {
        None => ending,
        Some(rest) => Ending::Frame(second(rest)),
    }
}

/// What is wrong with a second message.
fn second(rest: &[u8]) -> FirstFrameFault
    ensures { result ≡ second_kind (head_of rest.now) (step_of rest.now) }
{
    if read_head(rest).is_err() {
        return FirstFrameFault::Head;
    }
    match first_part(rest) {
        Ok(_) => FirstFrameFault::Stranger,
        Err(_) => FirstFrameFault::Chain,
    }
}
