//! The story of a link.

ghost use Rattle.std.specs.Prelude.{◌≡◌, ◌-◌, ◌++◌, ◌∷◌, [], OnOk, OnErr, length, take};

use crate::mark::Mark;
use share_state::{Rep, Req};
use smb_base::{Bytes, Key, Mid, NoMemory};
use std::alloc::Global;
use std::marker::Model;

/// What happened at a link: first what the client did and got, then what the share did meanwhile.
#[derive(Debug, Drop)]
pub enum Event {
    /// The program said this of itself.
    Marked(Mark),
    /// This frame was given to the connection, its four bytes of length included.
    Sent(Bytes),
    /// These bytes came.
    Got(Bytes),
    /// Nothing came for a while.
    Quiet,
    /// A connection was made.
    Joined,
    /// A connection could not be made.
    NotJoined,
    /// The connection is gone.
    Cut,
    /// The share did the request with this message id.
    Took(Mid),
    /// The share put the request with this message id off, and owes an interim reply (MS-SMB2 3.3.4.2).
    Pend(Mid),
    /// Another client, by its number, made this request and got this reply.
    Act(u32, Req, Rep),
    /// The share asked that the lease under this key be broken to this state (MS-SMB2 2.2.23.2).
    Break(Key, u8),
    /// The share dropped the disconnected opens under this key.
    Dropped(Key),
}

/// Events in their order. A contract sees the list of them.
#[derive(Debug, Drop)]
pub struct EventList {
    held: Vec<Event>,
}

impl Model for EventList {
    ghost use Rattle.std.specs.Prelude.{List};
    ghost use Rattle.smb_link.specs.declared.event.Event.{Event};

    ghost Value = { List Event };

    ghost view = { λ l. l.held.items };
}

impl EventList {
    /// No event. It takes no memory.
    pub fn new(alloc: Global) -> EventList
        ensures { result ≡ [] }
    {
        EventList {
            held: Vec::new(alloc),
        }
    }

    /// Lends the events.
    pub fn as_slice(&self) -> &[Event]
        ensures { result.now ≡ self.now }
    {
        self.held.as_slice()
    }

    /// Adds an event at the end. For want of memory nothing is changed.
    pub fn push(&mut self, event: Event) -> Result<(), NoMemory>
        ensures ok { OnOk result (self.new ≡ self.old ++ event ∷ []) }
        ensures err { OnErr result (self.new ≡ self.old) }
    {
        self.held.push(event)?;
        Ok(())
    }

    /// Adds two events at the end. For want of memory nothing is changed.
    pub fn push_both(&mut self, first: Event, second: Event) -> Result<(), NoMemory>
        ensures ok { OnOk result (self.new ≡ self.old ++ first ∷ second ∷ []) }
        ensures err { OnErr result (self.new ≡ self.old) }
    {
        self.push(first)?;
        match self.push(second) {
            Ok(()) => Ok(()),
            Err(NoMemory) => {
                self.drop_last();
                Err(NoMemory)
            }
        }
    }

    /// Drops the last event, where there is one.
    fn drop_last(&mut self)
        ensures { self.new ≡ take (length self.old - 1) self.old }
    {
        let count = self.held.len();
        if count > 0 {
            self.held.truncate(count - 1);
        }
    }
}
