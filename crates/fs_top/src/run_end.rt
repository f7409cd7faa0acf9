//! How a run of a script ends: its status, and the line that is printed last.

ghost use Rattle.std.specs.Prelude.{◌≡◌, ◌++◌, IfOk};
ghost use Rattle.fs_top.specs.Causes.{end_of};
ghost use Rattle.fs_top.specs.RunEndings.{status_of, word_of, refused_text, mount_text, text_of};
ghost use Rattle.fs_top.specs.declared.run_end.End.TheVariants as end;
ghost use Rattle.smb_mount.specs.declared.fault.MountFault.TheVariants as fault;

use crate::fault_lines::{CUTS_LINE, MEMORY_LINE, connects_line, dialect_line, frame_line};
use fs_core::{CoreFault, Protocol};
use smb_base::{NoMemory, Status, Text};
use smb_mount::MountFault;
use std::alloc::Global;

/// What is wrong with a frame.
#[derive(Clone, Copy, Debug, PartialEq, Eq)]
pub enum Wrong {
    /// Its first byte is not zero, or it is too long.
    Length,
    /// One of its messages is none that an honest server sends.
    Protocol(Protocol),
}

/// How a run of a script ends.
#[derive(Clone, Copy, Debug, PartialEq, Eq)]
pub enum End {
    /// The script was read to its end, and the share was left: status 0.
    Done,
    /// The line with this number was refused; the calls before it were answered, and the share was left: status 2.
    Line(u64),
    /// Memory ran out: status 3.
    Memory,
    /// The server refused the mount: status 4.
    Mount(MountFault),
    /// The frame with this number was wrong: status 5.
    Frame(u32, Wrong),
    /// As many connects in a row failed: status 6.
    Connects(u32),
    /// The connection was lost, or nothing came for too long: status 6.
    Cuts,
    /// The source failed; the calls before it were answered, and the share was left: status 7.
    Source,
    /// The sink refused what was to be printed: status 8.
    Sink,
    /// As many frames came as a run may take: status 10.
    Frames,
}

impl End {
    /// The end of a run whose client stops so, after so many frames.
    pub(crate) fn of(fault: CoreFault, frames: u32) -> End
        ensures { result ≡ end_of fault frames }
    {
        match fault {
            CoreFault::NoMemory => End::Memory,
            CoreFault::Protocol(what) => End::Frame(frames, Wrong::Protocol(what)),
            CoreFault::Refused(what) => End::Mount(what),
        }
    }

    /// The exit status of the program.
    pub fn status(&self) -> u8
        ensures { result ≡ status_of self.now }
    {
        match self {
            End::Done => 0,
            End::Line(_) => 2,
            End::Memory => 3,
            End::Mount(_) => 4,
            End::Frame(_, _) => 5,
            End::Connects(_) => 6,
            End::Cuts => 6,
            End::Source => 7,
            End::Sink => 8,
            End::Frames => 10,
        }
    }

    /// The line that is printed last; none at status 0 and 8. It fails only for want of memory.
    pub fn text(&self, alloc: Global) -> Result<Text, NoMemory>
        ensures { IfOk result (λ text. text ≡ text_of self.now) }
    {
        match self {
            End::Done => Text::of(alloc, ""),
            End::Line(number) => line_text(alloc, *number),
            End::Memory => Text::of(alloc, MEMORY_LINE),
            End::Mount(fault) => mount_text(alloc, *fault),
            End::Frame(number, wrong) => frame_line(alloc, *number, wrong.word()),
            End::Connects(number) => connects_line(alloc, *number),
            End::Cuts => Text::of(alloc, CUTS_LINE),
            End::Source => Text::of(alloc, "fault 7 source\n"),
            End::Sink => Text::of(alloc, ""),
            End::Frames => Text::of(alloc, "fault 10 frames\n"),
        }
    }
}

impl Wrong {
    /// The word for it in the last line.
    fn word(self) -> &'static str
        ensures { result.now ≡ word_of self }
    {
        match self {
            Wrong::Length => "length",
            Wrong::Protocol(Protocol::Head(_)) => "head",
            Wrong::Protocol(Protocol::Body(_)) => "body",
            Wrong::Protocol(Protocol::Info(_)) => "info",
            Wrong::Protocol(Protocol::Chain) => "chain",
            Wrong::Protocol(Protocol::Stranger(_)) => "stranger",
            Wrong::Protocol(Protocol::NoCredit) => "credit",
        }
    }
}

/// The line of a refused line of the script.
fn line_text(alloc: Global, number: u64) -> Result<Text, NoMemory>
    ensures { IfOk result (λ text. text ≡ text_of (end.Line number)) }
{
    let text = format!(in alloc; "fault 2 line {number}\n")?;
    Ok(Text::of_string(text))
}

/// The line of a refused mount.
fn mount_text(alloc: Global, fault: MountFault) -> Result<Text, NoMemory>
    ensures { IfOk result (λ text. text ≡ mount_text fault) }
{
    match fault {
        MountFault::Dialect(dialect) => dialect_line(alloc, dialect),
        MountFault::SigningRequired => Text::of(alloc, "fault 4 mount signing\n"),
        MountFault::Session(status) => status_text(alloc, "session", status),
        MountFault::NotGuest => Text::of(alloc, "fault 4 mount guest\n"),
        MountFault::Tree(status) => status_text(alloc, "tree", status),
        MountFault::NotDisk(kind) => disk_text(alloc, kind),
        MountFault::Malformed(_) => Text::of(alloc, ""),
        MountFault::NoMemory => Err(NoMemory),
    }
}

/// The line of a step of the mount that was refused with a status, in eight upper-case hex digits.
fn status_text(alloc: Global, word: &str, status: Status) -> Result<Text, NoMemory>
    ensures { IfOk result (λ text. text ≡ refused_text word.now status.0) }
{
    let digits = hex::encode_upper(alloc, status.0.to_be_bytes())?;
    let text = format!(in alloc; "fault 4 mount {word} {digits}\n")?;
    Ok(Text::of_string(text))
}

/// The line of a share of another kind.
fn disk_text(alloc: Global, kind: u8) -> Result<Text, NoMemory>
    ensures { IfOk result (λ text. text ≡ mount_text (fault.NotDisk kind)) }
{
    let text = format!(in alloc; "fault 4 mount disk {kind}\n")?;
    Ok(Text::of_string(text))
}
