//! The connection: what was sent and not taken, what is owed and not got, and what will be granted.

ghost use Rattle.std.specs.Prelude.{◌≡◌, ◌<◌, ◌++◌, ◌∷◌, [], None, OnOk, OnErr, MatchOption, map, length, slice_get};
ghost use Rattle.share_state.specs.Sent.{behind_create, put_off, sent_but, sent_with};

use crate::request::Rep;
use smb_base::{Bytes, Fid, Key, Mid, NoMemory, Status};
use std::alloc::Global;
use std::marker::Model;

/// What the last CREATE before a request in its frame came to. A related request (MS-SMB2 3.3.5.2.7.2) goes by it.
#[derive(Clone, Copy)]
pub enum LastCreate {
    /// None was taken.
    Nothing,
    /// It gave this open.
    Opened(Fid),
    /// It was refused.
    Refused(Status),
}

/// A message that the client sent and that was not taken yet.
#[derive(Drop)]
pub struct Sent {
    /// Its id.
    pub mid: Mid,
    /// The id of the first message of the frame that it came in.
    pub frame: Mid,
    /// The message, header and body.
    pub message: Bytes,
    /// An interim reply to it was owed already.
    pub pended: bool,
    /// What the last CREATE before it in its frame came to.
    pub last_create: LastCreate,
}

/// A message that the client is owed and did not get yet.
#[derive(Drop)]
pub enum Owed {
    /// An interim reply to this request (MS-SMB2 3.3.4.2), which was the message.
    Interim(Mid, Bytes),
    /// The reply to this request, which was the message.
    Reply(Mid, Bytes, Rep),
    /// The reply to a request that changes nothing on the share, as those of a mount; the request was the message.
    Aside(Mid, Bytes),
    /// The notice that the lease under this key is to be broken to this state (MS-SMB2 2.2.23.2), and whether it wants an
    /// acknowledgement.
    Notice(Key, u8, bool),
}

/// What the share chose at a request that was taken: the lease state, and whether the open is durable.
#[derive(Clone, Copy)]
pub struct Grant {
    /// The lease state that it granted.
    pub lease: u8,
    /// It granted a durable open.
    pub durable: bool,
}

/// Messages that were sent. A contract sees the list of them, the oldest first.
#[derive(Drop)]
pub struct SentList {
    held: Vec<Sent>,
}

impl Model for SentList {
    ghost use Rattle.std.specs.Prelude.{List};
    ghost use Rattle.share_state.specs.declared.connection.Sent.{Sent};

    ghost Value = { List Sent };

    ghost view = { λ l. l.held.items };
}

impl SentList {
    /// No message. It takes no memory.
    pub fn new(alloc: Global) -> SentList
        ensures { result ≡ [] }
    {
        SentList {
            held: Vec::new(alloc),
        }
    }

    /// Lends the messages.
    pub fn as_slice(&self) -> &[Sent]
        ensures { result.now ≡ self.now }
    {
        self.held.as_slice()
    }

    /// Adds one at the end. For want of memory nothing is changed.
    pub fn push(&mut self, item: Sent) -> Result<(), NoMemory>
        ensures ok { OnOk result (self.new ≡ self.old ++ item ∷ []) }
        ensures err { OnErr result (self.new ≡ self.old) }
    {
        self.held.push(item)?;
        Ok(())
    }

    /// Takes off the first one with this id, and drops every other one with it.
    pub fn take(&mut self, mid: Mid) -> Option<Sent>
        ensures first { result ≡ sent_with mid self.old }
        ensures others { self.new ≡ sent_but mid self.old }
    {
        let first = take_from(&mut self.held, mid);
        remove_from(&mut self.held, mid);
        first
    }

    /// Has each message with this id be one to which an interim reply was owed.
    pub fn put_off(&mut self, mid: Mid)
        ensures { self.new ≡ map (put_off mid) self.old }
    {
        put_off_in(&mut self.held, mid);
    }

    /// Has each message of the frame whose first message has this id know what the last CREATE before it came to.
    pub fn tell_create(&mut self, frame: Mid, last: LastCreate)
        ensures { self.new ≡ map (behind_create frame last) self.old }
    {
        tell_in(&mut self.held, frame, last);
    }
}

// Where the first message with this id is.
fn place_of(sent: &[Sent], mid: Mid) -> Option<usize>
    ensures { MatchOption result (sent_with mid sent.now ≡ None) (λ at. (at < length sent.now) × (sent_with mid sent.now ≡ slice_get sent.now at)) }
{
    for (at, one) in sent.iter().enumerate() {
        if one.mid.0 == mid.0 {
            return Some(at);
        }
    }
    None
}

// Takes the first message with this id off.
fn take_from(sent: &mut Vec<Sent>, mid: Mid) -> Option<Sent>
    ensures first { result ≡ sent_with mid sent.old.items }
    ensures others { sent_but mid sent.new.items ≡ sent_but mid sent.old.items }
{
    match place_of(sent, mid) {
        Some(at) => Some(sent.remove(at)),
        None => None,
    }
}

// Takes each message with this id off.
fn remove_from(sent: &mut Vec<Sent>, mid: Mid)
    ensures { sent.new.items ≡ sent_but mid sent.old.items }
{
    sent.retain(|one| one.mid.0 != mid.0);
}

// Has each message of this frame know what the last CREATE before it came to.
#[tactic(auto, using(std::proofs::lemmas::List::Edits::map_over_more))]
fn tell_in(sent: &mut [Sent], frame: Mid, last: LastCreate)
    ensures { sent.new ≡ map (behind_create frame last) sent.old }
{
    for one in sent.iter_mut() {
        tell_one(one, frame, last);
    }
}

// Has this message know it, where it is of the frame.
fn tell_one(one: &mut Sent, frame: Mid, last: LastCreate)
    ensures { one.new ≡ behind_create frame last one.old }
{
    if one.frame.0 == frame.0 {
        one.last_create = last;
    }
}

// Has each message with this id be one to which an interim reply was owed.
#[tactic(auto, using(std::proofs::lemmas::List::Edits::map_over_more))]
fn put_off_in(sent: &mut [Sent], mid: Mid)
    ensures { sent.new ≡ map (put_off mid) sent.old }
{
    for one in sent.iter_mut() {
        put_off_one(one, mid);
    }
}

// Has this message be one, where it has the id.
fn put_off_one(one: &mut Sent, mid: Mid)
    ensures { one.new ≡ put_off mid one.old }
{
    if one.mid.0 == mid.0 {
        one.pended = true;
    }
}

/// Messages that are owed. A contract sees the list of them, the oldest first.
#[derive(Drop)]
pub struct OwedList {
    held: Vec<Owed>,
}

impl Model for OwedList {
    ghost use Rattle.std.specs.Prelude.{List};
    ghost use Rattle.share_state.specs.declared.connection.Owed.{Owed};

    ghost Value = { List Owed };

    ghost view = { λ l. l.held.items };
}

impl OwedList {
    /// No message. It takes no memory.
    pub fn new(alloc: Global) -> OwedList
        ensures { result ≡ [] }
    {
        OwedList {
            held: Vec::new(alloc),
        }
    }

    /// Lends the messages.
    pub fn as_slice(&self) -> &[Owed]
        ensures { result.now ≡ self.now }
    {
        self.held.as_slice()
    }

    /// Adds one at the end. For want of memory nothing is changed.
    pub fn push(&mut self, item: Owed) -> Result<(), NoMemory>
        ensures ok { OnOk result (self.new ≡ self.old ++ item ∷ []) }
        ensures err { OnErr result (self.new ≡ self.old) }
    {
        self.held.push(item)?;
        Ok(())
    }
}

/// What the share is going to choose, request by request; `None` where it grants as much as it may. A contract sees the list.
#[derive(Drop)]
pub struct GrantList {
    held: Vec<Option<Grant>>,
}

impl Model for GrantList {
    ghost use Rattle.std.specs.Prelude.{List, Option};
    ghost use Rattle.share_state.specs.declared.connection.Grant.{Grant};

    ghost Value = { List (Option Grant) };

    ghost view = { λ l. l.held.items };
}

impl GrantList {
    /// No choice. It takes no memory.
    pub fn new(alloc: Global) -> GrantList
        ensures { result ≡ [] }
    {
        GrantList {
            held: Vec::new(alloc),
        }
    }

    /// Lends the choices.
    pub fn as_slice(&self) -> &[Option<Grant>]
        ensures { result.now ≡ self.now }
    {
        self.held.as_slice()
    }

    /// Adds one at the end. For want of memory nothing is changed.
    pub fn push(&mut self, item: Option<Grant>) -> Result<(), NoMemory>
        ensures ok { OnOk result (self.new ≡ self.old ++ item ∷ []) }
        ensures err { OnErr result (self.new ≡ self.old) }
    {
        self.held.push(item)?;
        Ok(())
    }
}
