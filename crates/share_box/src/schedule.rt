//! The turns that a box takes.

ghost use Rattle.std.specs.Prelude.{◌≡◌, ◌++◌, ◌∷◌, [], OnOk, OnErr};

use share_state::Req;
use smb_base::NoMemory;
use std::alloc::Global;
use std::marker::Model;

/// What the share behind a [`BoxLink`](crate::BoxLink) does at a turn.
#[derive(Debug, Drop)]
pub enum Turn {
    /// It serves the oldest request of a frame: the one with this number, from 0 on, of the frames that wait. The oldest request of
    /// each older frame is put off first, if it was not put off before: an interim reply to it comes.
    Serve(u32),
    /// It does this request of this client, which is not client 0.
    Act(u32, Req),
    /// The connection ends.
    Cut,
    /// It does nothing.
    Quiet,
    /// It drops all disconnected opens.
    DropAll,
    /// It refuses a connect.
    RefuseConnect,
}

/// Turns in their order. A contract sees the list of them.
#[derive(Debug, Drop)]
pub struct TurnList {
    held: Vec<Turn>,
}

impl Model for TurnList {
    ghost use Rattle.std.specs.Prelude.{List};
    ghost use Rattle.share_box.specs.declared.schedule.Turn.{Turn};

    ghost Value = { List Turn };

    ghost view = { λ l. l.held.items };
}

impl TurnList {
    /// No turn. It takes no memory.
    pub fn new(alloc: Global) -> TurnList
        ensures { result ≡ [] }
    {
        TurnList {
            held: Vec::new(alloc),
        }
    }

    /// Lends the turns.
    pub fn as_slice(&self) -> &[Turn]
        ensures { result.now ≡ self.now }
    {
        self.held.as_slice()
    }

    /// Adds a turn at the end. For want of memory nothing is changed.
    pub fn push(&mut self, turn: Turn) -> Result<(), NoMemory>
        ensures ok { OnOk result (self.new ≡ self.old ++ turn ∷ []) }
        ensures err { OnErr result (self.new ≡ self.old) }
    {
        self.held.push(turn)?;
        Ok(())
    }

    // The turns as a vector, without a copy.
    pub(crate) fn into_vec(self) -> Vec<Turn>
        ensures { result.items ≡ self }
    {
        self.held
    }
}

/// Where the turns of a box come from.
#[derive(Debug, Drop)]
pub enum Schedule {
    /// These turns, one after the other. At their end the box serves what waits.
    List(TurnList),
}
