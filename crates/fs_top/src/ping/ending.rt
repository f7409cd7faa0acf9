//! How a ping ends: its status, and the line that is printed.

ghost use Rattle.std.specs.Prelude.{◌≡◌, IfOk};
ghost use Rattle.fs_top.specs.Ping.Endings.{status_of, text_of, kind_text};

use crate::fault_lines::{CUTS_LINE, MEMORY_LINE, connects_line, dialect_line, frame_line};
use smb_base::{NoMemory, Text};
use std::alloc::Global;

/// What a server says of itself in its NEGOTIATE reply (MS-SMB2 2.2.4).
#[derive(Clone, Copy, Debug, PartialEq, Eq)]
pub struct Greeting {
    /// What it can do.
    pub caps: u32,
    /// The greatest payload of a query or a change of information, in bytes.
    pub transact: u32,
    /// The greatest read, in bytes.
    pub read: u32,
    /// The greatest write, in bytes.
    pub write: u32,
    /// The server's own id.
    pub guid: [u8; 16],
}

/// What is wrong with a frame: the first of these that stands.
#[derive(Clone, Copy, Debug, PartialEq, Eq)]
pub enum FirstFrameFault {
    /// Its first byte is not zero, or it is too long.
    Length,
    /// One of its messages has no header.
    Head,
    /// One of its messages names no place where the next one can begin.
    Chain,
    /// One of its messages answers no request that is unanswered.
    Stranger,
    /// One of its messages is no reply to its request.
    Body,
}

/// How a ping ends.
#[derive(Clone, Copy, Debug, PartialEq, Eq)]
pub enum Ending {
    /// The server answered in the dialect that was offered: status 0.
    Greeted(Greeting),
    /// The words are none of the program's: status 1.
    Words,
    /// Memory ran out: status 3.
    Memory,
    /// The server chose another dialect, or refused with 0: status 4.
    Dialect(u16),
    /// The first frame is not a NEGOTIATE reply: status 5.
    Frame(FirstFrameFault),
    /// The connection could not be made: status 6.
    Connects,
    /// The connection was lost, or nothing came for too long: status 6.
    Cuts,
}

impl Ending {
    /// The exit status of the program.
    pub fn status(&self) -> u8
        ensures { result ≡ status_of self.now }
    {
        match self {
            Ending::Greeted(_) => 0,
            Ending::Words => 1,
            Ending::Memory => 3,
            Ending::Dialect(_) => 4,
            Ending::Frame(_) => 5,
            Ending::Connects => 6,
            Ending::Cuts => 6,
        }
    }

    /// The line that is printed. It fails only for want of memory.
    pub fn text(&self, alloc: Global) -> Result<Text, NoMemory>
        ensures { IfOk result (λ text. text ≡ text_of self.now) }
    {
        match self {
            Ending::Greeted(greeting) => greeting_text(alloc, greeting),
            Ending::Words => Text::of(alloc, "fault 1 words\n"),
            Ending::Memory => Text::of(alloc, MEMORY_LINE),
            Ending::Dialect(dialect) => dialect_line(alloc, *dialect),
            Ending::Frame(kind) => frame_line(alloc, 1, kind.word()),
            Ending::Connects => connects_line(alloc, 1),
            Ending::Cuts => Text::of(alloc, CUTS_LINE),
        }
    }
}

impl FirstFrameFault {
    /// The word for it in the line.
    fn word(self) -> &'static str
        ensures { result.now ≡ kind_text self }
    {
        match self {
            FirstFrameFault::Length => "length",
            FirstFrameFault::Head => "head",
            FirstFrameFault::Chain => "chain",
            FirstFrameFault::Stranger => "stranger",
            FirstFrameFault::Body => "body",
        }
    }
}

/// The line of a server that answered.
fn greeting_text(alloc: Global, greeting: &Greeting) -> Result<Text, NoMemory>
    ensures { IfOk result (λ text. text ≡ text_of (Ending.Greeted greeting.now)) }
{
    let guid = hex::encode(alloc, greeting.guid)?;
    let text = format!(in alloc;
        "smb 0x0210 caps {} transact {} read {} write {} guid {}\n",
        greeting.caps, greeting.transact, greeting.read, greeting.write, guid
    )?;
    Ok(Text::of_string(text))
}
