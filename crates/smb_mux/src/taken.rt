//! What a frame brings.

ghost use Rattle.std.specs.Prelude.{◌≡◌, ◌++◌, ◌∷◌, [], OnOk, OnErr};

use smb_base::{Bytes, Key, Mid, NoMemory};
use std::alloc::Global;
use std::marker::Model;

/// The final reply to a request.
#[derive(Drop)]
pub struct Reply {
    /// The id of the request.
    pub mid: Mid,
    /// The message, header and body.
    pub part: Bytes,
}

/// The notice that a lease is broken (MS-SMB2 2.2.23.2).
#[derive(Clone, Copy, Debug, PartialEq, Eq)]
pub struct BreakNote {
    /// The key of the lease.
    pub key: Key,
    /// The state that it is broken to: READ 1, HANDLE 2, WRITE 4.
    pub to: u8,
    /// Whether the server wants to be told once the client has done its part.
    pub wants_ack: bool,
}

/// What a frame brings.
#[derive(Drop)]
pub struct Taken {
    /// The final replies, in order.
    pub replies: ReplyList,
    /// The notices of broken leases, in order.
    pub breaks: BreakNoteList,
    /// The requests of which an interim reply came, in order.
    pub interim: MidList,
}

impl Taken {
    /// Nothing. It takes no memory.
    pub fn new(alloc: Global) -> Taken
        ensures { result ≡ record { replies = []; breaks = []; interim = [] } }
    {
        Taken {
            replies: ReplyList::new(alloc),
            breaks: BreakNoteList::new(alloc),
            interim: MidList::new(alloc),
        }
    }
}

/// Replies. A contract sees the list of them.
#[derive(Drop)]
pub struct ReplyList {
    held: Vec<Reply>,
}

impl Model for ReplyList {
    ghost use Rattle.std.specs.Prelude.{List};
    ghost use Rattle.smb_mux.specs.declared.taken.Reply.{Reply};

    ghost Value = { List Reply };

    ghost view = { λ l. l.held.items };
}

impl ReplyList {
    /// None. It takes no memory.
    pub fn new(alloc: Global) -> ReplyList
        ensures { result ≡ [] }
    {
        ReplyList {
            held: Vec::new(alloc),
        }
    }

    /// Adds one at the end. For want of memory nothing is changed.
    pub fn push(&mut self, reply: Reply) -> Result<(), NoMemory>
        ensures ok { OnOk result (self.new ≡ self.old ++ reply ∷ []) }
        ensures err { OnErr result (self.new ≡ self.old) }
    {
        self.held.push(reply)?;
        Ok(())
    }

    /// Lends them.
    pub fn as_slice(&self) -> &[Reply]
        ensures { result.now ≡ self.now }
    {
        self.held.as_slice()
    }
}

/// Notices of broken leases. A contract sees the list of them.
#[derive(Drop)]
pub struct BreakNoteList {
    held: Vec<BreakNote>,
}

impl Model for BreakNoteList {
    ghost use Rattle.std.specs.Prelude.{List};
    ghost use Rattle.smb_mux.specs.declared.taken.BreakNote.{BreakNote};

    ghost Value = { List BreakNote };

    ghost view = { λ l. l.held.items };
}

impl BreakNoteList {
    /// None. It takes no memory.
    pub fn new(alloc: Global) -> BreakNoteList
        ensures { result ≡ [] }
    {
        BreakNoteList {
            held: Vec::new(alloc),
        }
    }

    /// Adds one at the end. For want of memory nothing is changed.
    pub fn push(&mut self, note: BreakNote) -> Result<(), NoMemory>
        ensures ok { OnOk result (self.new ≡ self.old ++ note ∷ []) }
        ensures err { OnErr result (self.new ≡ self.old) }
    {
        self.held.push(note)?;
        Ok(())
    }

    /// Lends them.
    pub fn as_slice(&self) -> &[BreakNote]
        ensures { result.now ≡ self.now }
    {
        self.held.as_slice()
    }
}

/// Ids of messages. A contract sees the list of them.
#[derive(Drop)]
pub struct MidList {
    held: Vec<Mid>,
}

impl Model for MidList {
    ghost use Rattle.std.specs.Prelude.{List};
    ghost use Rattle.smb_base.specs.declared.names.Mid.{Mid};

    ghost Value = { List Mid };

    ghost view = { λ l. l.held.items };
}

impl MidList {
    /// None. It takes no memory.
    pub fn new(alloc: Global) -> MidList
        ensures { result ≡ [] }
    {
        MidList {
            held: Vec::new(alloc),
        }
    }

    /// Adds one at the end. For want of memory nothing is changed.
    pub fn push(&mut self, mid: Mid) -> Result<(), NoMemory>
        ensures ok { OnOk result (self.new ≡ self.old ++ mid ∷ []) }
        ensures err { OnErr result (self.new ≡ self.old) }
    {
        self.held.push(mid)?;
        Ok(())
    }

    /// Lends them.
    pub fn as_slice(&self) -> &[Mid]
        ensures { result.now ≡ self.now }
    {
        self.held.as_slice()
    }
}
