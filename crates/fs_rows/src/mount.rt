//! The states of a mount, reply by reply.

ghost use Rattle.std.specs.Prelude.{IfOk, IsOk};
ghost use Rattle.smb_head.specs.Header.{head_of};

use crate::frames::message_of;
use crate::outcome::SEED;
use crate::requests::units_of;
use crate::row::Step;
use crate::story::put;
use anyhow::{Result, bail, ensure};
use smb_field::BodyFault;
use smb_head::read_head;
use smb_mount::{Authenticated, Challenged, MountFault, Mounted, Negotiated, New, Request, SetUp};
use std::alloc::Global;

/// What a mount told so far.
#[derive(Drop)]
struct Told {
    requests: bool,
    text: Vec<u8>,
}

/// What a mount of this share tells, in place of a session, with these replies: its requests, where they are asked for, and then what it
/// knows or why it was refused.
pub fn mount(
    alloc: Global,
    path: &str,
    previous: u64,
    steps: &[Step],
    requests: bool,
) -> Result<Vec<u8>> {
    let units = units_of(alloc, path)?;
    if units.len() > 32_767 {
        bail!("a path that is too long");
    }
    let mut told = Told {
        requests,
        text: Vec::new(alloc),
    };
    negotiate(alloc, New::new(SEED, units, previous), steps, &mut told)?;
    Ok(told.text)
}

/// The message of the reply with this number, from 0 on, whose header reads.
fn part(steps: &[Step], number: usize) -> Result<&[u8]>
    ensures { IfOk result (λ part. IsOk (head_of part.now)) }
{
    let message = match steps.get(number) {
        Some(Step::Got(frame)) => message_of(frame)?,
        _ => bail!("a reply is missing"),
    };
    match read_head(message) {
        Ok(_) => Ok(message),
        Err(_) => bail!("a reply whose header does not read"),
    }
}

fn negotiate(alloc: Global, state: New, steps: &[Step], told: &mut Told) -> Result<()> {
    tell_request(alloc, &state.request(alloc)?, told)?;
    match state.reply(part(steps, 0)?) {
        Ok(state) => set_up(alloc, state, steps, told),
        Err(fault) => tell_fault(alloc, fault, told),
    }
}

fn set_up(alloc: Global, state: Negotiated, steps: &[Step], told: &mut Told) -> Result<()> {
    tell_request(alloc, &state.request(alloc)?, told)?;
    match state.reply(part(steps, 1)?) {
        Ok(SetUp::Challenged(state)) => authenticate(alloc, state, steps, told),
        Ok(SetUp::Authenticated(state)) => connect(alloc, state, part(steps, 2)?, told),
        Err(fault) => tell_fault(alloc, fault, told),
    }
}

fn authenticate(alloc: Global, state: Challenged, steps: &[Step], told: &mut Told) -> Result<()> {
    tell_request(alloc, &state.request(alloc)?, told)?;
    match state.reply(part(steps, 2)?) {
        Ok(state) => connect(alloc, state, part(steps, 3)?, told),
        Err(fault) => tell_fault(alloc, fault, told),
    }
}

fn connect(alloc: Global, state: Authenticated, reply: &[u8], told: &mut Told) -> Result<()>
    requires { IsOk (head_of reply.now) }
{
    tell_request(alloc, &state.request(alloc)?, told)?;
    match state.reply(reply) {
        Ok(state) => leave(alloc, state, told),
        Err(fault) => tell_fault(alloc, fault, told),
    }
}

/// Tells the requests that end a mount, and what is known of it.
fn leave(alloc: Global, state: Mounted, told: &mut Told) -> Result<()> {
    let facts = state.facts();
    let requests = state.leave(alloc)?;
    tell_request(alloc, &requests[0], told)?;
    tell_request(alloc, &requests[1], told)?;
    let (session, tree, caps) = (facts.session, facts.tree, facts.caps.0);
    let line = format!(in alloc; "session {session:X} tree {tree:X} caps {caps}\n")?;
    put(&mut told.text, line.as_str())?;
    let (transact, read, write) = (facts.max_transact, facts.max_read, facts.max_write);
    let guid = hex::encode_upper(alloc, facts.guid)?;
    let guid = guid.as_str();
    let line = format!(in alloc; "transact {transact} read {read} write {write} guid {guid}\n")?;
    put(&mut told.text, line.as_str())
}

/// Tells a request, where requests are asked for.
fn tell_request(alloc: Global, request: &Request, told: &mut Told) -> Result<()> {
    ensure!(!request.related, "a request that is related to another");
    if !told.requests {
        return Ok(());
    }
    let (command, charge) = (request.command, request.charge);
    let (tree, session) = (request.tree, request.session);
    let body = hex::encode_upper(alloc, request.body.as_slice())?;
    let body = body.as_str();
    let line = format!(in alloc; "request {command} {charge} {tree:X} {session:X} {body}\n")?;
    put(&mut told.text, line.as_str())
}

/// Tells why a mount was refused.
fn tell_fault(alloc: Global, fault: MountFault, told: &mut Told) -> Result<()> {
    let line = match fault {
        MountFault::Dialect(number) => format!(in alloc; "dialect 0x{number:04X}\n")?,
        MountFault::Session(status) => status_line(alloc, "session", status.0)?,
        MountFault::Tree(status) => status_line(alloc, "tree", status.0)?,
        MountFault::NotDisk(kind) => format!(in alloc; "disk {kind}\n")?,
        MountFault::SigningRequired => String::from_str(alloc, "signing\n")?,
        MountFault::NotGuest => String::from_str(alloc, "guest\n")?,
        MountFault::Malformed(fault) => String::from_str(alloc, body_line(fault))?,
        MountFault::NoMemory => bail!("out of memory"),
    };
    put(&mut told.text, line.as_str())
}

fn status_line(alloc: Global, what: &str, status: u32) -> Result<String> {
    Ok(format!(in alloc; "{what} {status:08X}\n")?)
}

/// The line of what is wrong with a body.
fn body_line(fault: BodyFault) -> &'static str {
    match fault {
        BodyFault::Short => "malformed short\n",
        BodyFault::Size => "malformed size\n",
        _ => "malformed\n",
    }
}
