//! The call `stat`: a CREATE that opens what is there for reading its attributes, a QUERY_INFO of all that is known of it, and a CLOSE.

ghost use Rattle.std.specs.Prelude.{◌≡◌, ◌≤◌, ◌==◌, IfOk, if◌then◌else◌};
ghost use Rattle.smb_link.specs.Program.{map_of, number_of_fault, of_errno};
ghost use Rattle.smb_link.specs.Stat.{kind_of, shown_mode, stat_program};
ghost use Rattle.fs_core.specs.Asks.{chain_of, alone_of, said_by, IsPathOnShare};
ghost use Rattle.fs_core.specs.declared.stat.Progress.TheVariants as progress;
ghost use Rattle.fs_core.specs.Fits.{answer_of, rest_of, IsFirst};
ghost use Rattle.fs_core.specs.Written.{IsPath, IsWritable};
ghost use Rattle.fs_core.specs.Steps.{advanced_by, opened_with, outcome_of, outcome_of_body, refused_with};

use crate::request::{EVERY_BIT, Requests, close, open, query};
use fs_types::{Answer, Kind, Options, StatOf};
use share_state::{Rep, RepBody};
use smb_base::{Errno, Fid, NoMemory, Status, Units, errno_of};
use smb_mount::Facts;
use smb_names::{NameFault, NameMap, split_path, wire_path};
use std::alloc::Global;
use std::marker::Model;

/// The longest path, in bytes.
const LONGEST: usize = 4_095;

/// What a call came to.
#[derive(Clone, Copy, Debug, PartialEq, Eq)]
pub(crate) enum Outcome {
    /// This is known of the file.
    Known(StatOf),
    /// It failed with this number; where that is EREMOTEIO, for this status of the server.
    Failed(Errno, Option<Status>),
}

impl Outcome {
    /// It as an answer.
    pub(crate) fn answer(self) -> Answer
        ensures { result ≡ answer_of self }
    {
        match self {
            Outcome::Known(stat) => Answer::Stat(stat),
            Outcome::Failed(errno, status) => Answer::Err(errno, status),
        }
    }
}

/// How far a `stat` has come, by the replies that were looked at.
#[derive(Clone, Copy, Debug, PartialEq, Eq)]
pub(crate) enum Progress {
    /// What is there is to be opened.
    Opening,
    /// What is open is to be asked about.
    Querying(Fid),
    /// What was open is to be closed, and then this is the answer.
    Closing(Fid, Outcome),
    /// This is the answer.
    Said(Outcome),
}

/// A `stat`: the path as the share has it, which is empty where the call was refused by the client itself, and how far it has come.
#[derive(Drop)]
pub(crate) struct Stat {
    pub(crate) path: Units,
    pub(crate) progress: Progress,
}

impl Stat {
    /// The stat of a path. It fails only for want of memory.
    pub(crate) fn begin(alloc: Global, options: &Options, path: &str) -> Result<Stat, NoMemory>
        ensures rest { IfOk result (λ stat. rest_of options.now stat ≡ stat_program options.now path.now) }
        ensures first { IfOk result (λ stat. IsFirst stat.progress) }
    {
        match path_on_share(alloc, options, path) {
            Ok(path) => Ok(Stat {
                path,
                progress: Progress::Opening,
            }),
            Err(NameFault::NoMemory) => Err(NoMemory),
            Err(fault) => Ok(Stat {
                path: Units::new(alloc),
                progress: Progress::Said(local_refusal(fault)),
            }),
        }
    }

    /// Its three requests as one frame. It fails only for want of memory.
    pub(crate) fn chain(&self, alloc: Global, facts: &Facts) -> Result<Requests, NoMemory>
        ensures value { IfOk result (λ r. r ≡ chain_of facts.now self.now.path) }
        ensures path { IfOk result (λ r. IsPath self.now.path) }
    {
        let mut requests = Requests::new(alloc);
        requests.push(open(alloc, facts, &self.path)?)?;
        requests.push(query(alloc, facts, true, EVERY_BIT)?)?;
        requests.push(close(alloc, facts, true, EVERY_BIT)?)?;
        Ok(requests)
    }

    /// Its next request alone; none where it has its answer. It fails only for want of memory.
    pub(crate) fn alone(&self, alloc: Global, facts: &Facts) -> Result<Requests, NoMemory>
        ensures value { IfOk result (λ r. r ≡ alone_of facts.now self.now) }
        ensures can { IfOk result (λ r. IsWritable self.now.path self.now.progress) }
    {
        let mut requests = Requests::new(alloc);
        match self.progress {
            Progress::Opening => requests.push(open(alloc, facts, &self.path)?)?,
            Progress::Querying(fid) => requests.push(query(alloc, facts, false, fid)?)?,
            Progress::Closing(fid, _) => requests.push(close(alloc, facts, false, fid)?)?,
            Progress::Said(_) => {}
        }
        Ok(requests)
    }

    /// Its next request has this reply.
    pub(crate) fn reply(&mut self, options: &Options, reply: &Rep)
        ensures progress { self.new.progress ≡ advanced_by options.now reply.now self.old.progress }
        ensures path { self.new.path ≡ self.old.path }
    {
        self.progress = self.progress.advanced(options, reply);
    }
}

impl Progress {
    // What it is once the next request has this reply.
    fn advanced(self, options: &Options, reply: &Rep) -> Progress
        ensures { result ≡ advanced_by options.now reply.now self }
    {
        match self {
            Progress::Opening => opened(reply),
            Progress::Querying(fid) => Progress::Closing(fid, info_outcome(options, reply)),
            Progress::Closing(_, outcome) => Progress::Said(outcome),
            Progress::Said(outcome) => Progress::Said(outcome),
        }
    }

    /// What it says, where it has its answer.
    pub(crate) fn said(self) -> Option<Outcome>
        ensures { result ≡ said_by self }
    {
        match self {
            Progress::Said(outcome) => Some(outcome),
            _ => None,
        }
    }
}

// How a stat goes on whose CREATE has this reply.
fn opened(reply: &Rep) -> Progress
    ensures { result ≡ (if reply.now.status.0 == 0 then opened_with reply.now.body else progress.Said (refused_with reply.now.status)) }
{
    if reply.status != Status::SUCCESS {
        return Progress::Said(refusal(reply.status));
    }
    match &reply.body {
        RepBody::Opened { fid, .. } => Progress::Querying(*fid),
        _ => Progress::Said(Outcome::Failed(Errno::EIO, None)),
    }
}

// What a stat comes to whose QUERY_INFO has this reply.
fn info_outcome(options: &Options, reply: &Rep) -> Outcome
    ensures { result ≡ outcome_of options.now reply.now }
{
    if reply.status != Status::SUCCESS {
        return refusal(reply.status);
    }
    match &reply.body {
        RepBody::Info {
            dir,
            size,
            read_only,
            links,
            number,
            ..
        } => Outcome::Known(StatOf {
            kind: kind_of(*dir),
            size: *size,
            mode: shown_mode(options, *dir, *read_only),
            links: *links,
            number: *number,
        }),
        _ => Outcome::Failed(Errno::EIO, None),
    }
}

// What a status of the server comes to.
fn refusal(status: Status) -> Outcome
    ensures { result ≡ refused_with status }
{
    let errno = errno_of(status);
    if errno == Errno::EREMOTEIO {
        Outcome::Failed(errno, Some(status))
    } else {
        Outcome::Failed(errno, None)
    }
}

fn kind_of(dir: bool) -> Kind
    ensures { result ≡ kind_of dir }
{
    if dir { Kind::Dir } else { Kind::File }
}

// The mode that is shown.
fn shown_mode(options: &Options, dir: bool, read_only: bool) -> u16
    ensures { result ≡ shown_mode options.now dir read_only }
{
    let mode = if dir {
        options.dir_mode
    } else {
        options.file_mode
    };
    if read_only { mode & 0o7555 } else { mode }
}

// The path as the share has it.
fn path_on_share(alloc: Global, options: &Options, path: &str) -> Result<Units, NameFault>
    ensures { IsPathOnShare options.now path.now result }
{
    if path.len() > LONGEST {
        return Err(NameFault::TooLong);
    }
    let components = match split_path(alloc, path) {
        Ok(components) => components,
        Err(NoMemory) => return Err(NameFault::NoMemory),
    };
    wire_path(alloc, components.as_slice(), name_map(options))
}

// How names are written on the share.
fn name_map(options: &Options) -> NameMap
    ensures { result ≡ map_of options.now }
{
    if options.mapposix {
        NameMap::Sfm
    } else {
        NameMap::Plain
    }
}

// What a fault of a path comes to: EILSEQ for a character that no name may have, else ENAMETOOLONG.
fn local_refusal(fault: NameFault) -> Outcome
    ensures { answer_of result ≡ of_errno (number_of_fault fault) }
{
    match fault {
        NameFault::Reserved => Outcome::Failed(Errno::EILSEQ, None),
        _ => Outcome::Failed(Errno::ENAMETOOLONG, None),
    }
}
