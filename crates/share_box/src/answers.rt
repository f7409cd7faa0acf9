//! Replies, each as a frame of its own.

ghost use Rattle.std.specs.Prelude.{◌≡◌, true, Ok, IfOk};
ghost use Rattle.smb_head.specs.Header.{head_of};
ghost use Rattle.fs_plain.specs.Masked.{untold};
ghost use Rattle.share_box.specs.Bodies.{in_part};
ghost use Rattle.share_box.specs.Paid.{IsReplyTo};
ghost use Rattle.share_box.specs.Answers.{is_first_message, said_session, said_aside, session_of, tree_of, route_of, flags_of, pending, reply_head, reply_of, interim_of};

use crate::bodies::{Said, put_body, status_of};
use crate::requests::STANDARD;
use share_state::{Rep, RepBody};
use smb_base::{Bytes, NoMemory, Status};
use smb_body_a::read_session_setup_request;
use smb_body_c::read_query_info_request;
use smb_chain::ChainBuilder;
use smb_head::command::{NEGOTIATE, QUERY_INFO, SESSION_SETUP, TREE_CONNECT};
use smb_head::{Head, Route, read_head};
use smb_le::{HeadFlags, get_u32};
use std::alloc::Global;

/// The id of the session (MS-SMB2 2.2.1.2).
const SESSION: u64 = 1;

/// The id of the tree.
const TREE: u32 = 1;

// What the reply says to a request that changes nothing on the share, by its command.
pub(crate) fn said_aside(command: u16, message: &[u8]) -> Said
    ensures { result ≡ said_aside command message.now }
{
    match command {
        NEGOTIATE => Said::Negotiated,
        SESSION_SETUP => said_session(message),
        TREE_CONNECT => Said::Tree,
        _ => Said::Done,
    }
}

// A session is made by its second message: its first one is answered by a challenge.
#[tactic(auto, unfolding(crate::specs::Answers::said_session))]
fn said_session(message: &[u8]) -> Said
    ensures { result ≡ said_session message.now }
{
    match read_session_setup_request(message) {
        Ok(request) => {
            if is_first_message(request.buffer) {
                Said::Challenge
            } else {
                Said::Session
            }
        }
        Err(_) => Said::Session,
    }
}

// A token that is NTLM's message of type 1 (MS-NLMP 2.2.1.1).
fn is_first_message(token: &[u8]) -> bool
    ensures { result ≡ is_first_message token.now }
{
    12 <= token.len() && &token[..8] == b"NTLMSSP\0".as_slice() && get_u32(token, 8) == 1
}

// The session of a reply: that of the request, or the one that it makes.
fn session_of(head: &Head) -> u64
    ensures { result ≡ session_of head.now }
{
    if head.command == SESSION_SETUP {
        SESSION
    } else {
        head.session
    }
}

// The tree of a reply: that of the request, or the one that it connects.
fn tree_of(head: &Head) -> u32
    ensures { result ≡ tree_of head.now }
{
    if head.command == TREE_CONNECT {
        return TREE;
    }
    match head.route {
        Route::Sync(tree) => tree,
        Route::Async(_) => 0,
    }
}

// The way of a reply: after an interim reply, and for that one itself, it is an asynchronous one, under the id of its message.
fn route_of(head: &Head, pended: bool) -> Route
    ensures { result ≡ route_of head.now pended }
{
    if pended {
        Route::Async(head.mid.0)
    } else {
        Route::Sync(tree_of(head))
    }
}

// The flags of a reply.
fn flags_of(pended: bool) -> HeadFlags
    ensures { result ≡ flags_of pended }
{
    if pended {
        HeadFlags(HeadFlags::REPLY.0 | HeadFlags::ASYNC.0)
    } else {
        HeadFlags::REPLY
    }
}

// The header of a reply.
fn reply_head(head: &Head, credits: u16, pended: bool, said: &Said) -> Head
    ensures { result ≡ reply_head head.now credits pended said.now }
{
    Head {
        charge: head.charge,
        status: status_of(said),
        command: head.command,
        credits,
        flags: flags_of(pended),
        next: 0,
        mid: head.mid,
        route: route_of(head, pended),
        session: session_of(head),
    }
}

// What a message asks for is told in part: it is a QUERY_INFO for FileStandardInformation.
#[tactic(auto, unfolding(fs_plain::specs::Masked::untold))]
fn is_told_in_part(head: &Head, message: &[u8]) -> bool
    requires { head_of message.now ≡ Ok head.now }
    ensures { result ≡ in_part (untold message.now) }
{
    if head.command != QUERY_INFO {
        return false;
    }
    match read_query_info_request(message) {
        Ok(query) => query.class == STANDARD,
        Err(_) => false,
    }
}

// The reply to a message, as a frame; no byte where the message has no header. It is an asynchronous one where the message was put off.
#[tactic(auto, unfolding(crate::specs::Answers::reply_of, smb_chain::specs::Chain::chain))]
pub(crate) fn reply(
    alloc: Global,
    credits: u16,
    pended: bool,
    message: &[u8],
    said: &Said,
) -> Result<Bytes, NoMemory>
    ensures exact { IfOk result (λ f. f ≡ reply_of credits pended message.now said.now) }

    // It is one frame of one message, whose header and body are read again.
    ensures again { IfOk result (λ f. IsReplyTo (head_of message.now) (in_part (untold message.now)) credits pended said.now f) }
{
    let Ok(head) = read_head(message) else {
        return Ok(Bytes::new(alloc));
    };
    let mut body = Vec::new(alloc);
    put_body(alloc, &mut body, is_told_in_part(&head, message), said)?;
    let mut chain = ChainBuilder::new(alloc);
    chain.add(&reply_head(&head, credits, pended, said), &body)?;
    chain.finish()
}

// The interim reply to a message (MS-SMB2 3.3.4.2), which grants nothing.
pub(crate) fn interim(alloc: Global, message: &[u8]) -> Result<Bytes, NoMemory>
    ensures exact { IfOk result (λ f. f ≡ interim_of message.now) }
    ensures again { IfOk result (λ f. IsReplyTo (head_of message.now) (in_part (untold message.now)) 0 true pending f) }
{
    reply(alloc, 0, true, message, &pending())
}

// That a request was put off.
fn pending() -> Said
    ensures { result ≡ pending }
{
    Said::Share(Rep {
        status: Status::PENDING,
        body: RepBody::None,
    })
}
