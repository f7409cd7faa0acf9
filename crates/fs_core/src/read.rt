//! What a reply says.

ghost use Rattle.std.specs.Prelude.{◌≡◌, true, false, bit_and, None, Some, Err, IfErr, if◌then◌else◌};
ghost use Rattle.share_state.specs.declared.request.RepBody.TheVariants as body;
ghost use Rattle.fs_plain.specs.Masked.{Nothing};
ghost use Rattle.fs_plain.specs.Replies.{granted_state, opened_in, opened_with, closed_in, known_whole, info_of, info_in, body_in, is_error, reply_by_status, reply_of};
ghost use Rattle.smb_body_b.specs.Create.{seen_create_reply};
ghost use Rattle.smb_body_b.specs.Contexts.{read_of};
ghost use Rattle.smb_field.specs.declared.field.BodyFault.TheVariants as body_fault;
ghost use Rattle.smb_head.specs.declared.command.TheConstants.{QUERY_INFO};
ghost use Rattle.fs_core.specs.declared.read.WireFault.TheVariants as fault;
ghost use Rattle.fs_core.specs.Seen.{seen, seen_body, is_done, is_known, IsOfBody, IsOfInfo, IsOfInformation, IsOfReply};

use share_state::{Rep, RepBody};
use smb_base::{Key, Status};
use smb_body_b::{
    BodyFault, ContextSet, CreateReply, read_close_reply, read_contexts, read_create_reply,
};
use smb_body_c::{read_buffer_reply, read_error_reply};
use smb_head::command::{CLOSE, CREATE, QUERY_INFO};
use smb_info::{All, InfoFault, read_all};
use thiserror::Error;

/// The oplock level that says that a lease was granted (MS-SMB2 2.2.14).
const LEASE: u8 = 0xFF;

/// The bits of a lease's state: read, handle and write (MS-SMB2 2.2.13.2.8).
const STATES: u32 = 7;

/// The attribute READONLY (MS-FSCC 2.6).
const READ_ONLY: u32 = 1;

/// Why a reply says nothing.
#[derive(Clone, Copy, Debug, PartialEq, Eq, Error)]
pub enum WireFault {
    /// Its body.
    #[error("{0}")]
    Body(BodyFault),
    /// The information that its body holds.
    #[error("{0}")]
    Info(InfoFault),
}

/// What the final reply with this status says to a request with this command: a CREATE, a CLOSE or a QUERY_INFO.
/// `part` is the whole message, header and body. The request is one that is told everything: a QUERY_INFO for FileAllInformation, and no
/// reclaim. A query that knows more than was asked for counts as done. It takes no memory.
///
/// # Errors
///
/// What the readers of the body and of the information refuse. A success of another command is a fault of value.
pub fn read_reply(command: u16, status: Status, part: &[u8]) -> Result<Rep, WireFault>
    ensures exact { seen result ≡ reply_by_status Nothing status.0 command part.now }
    ensures unknown { is_done status.0 command ≡ true → is_known command ≡ false → result ≡ Err (fault.Body body_fault.Value) }
    ensures of_reply { IfErr result (IsOfReply command) }
    ensures of_info { is_done status.0 command ≡ true → command ≡ QUERY_INFO → IfErr result (IsOfInfo part.now) }
{
    if is_done(status, command) {
        done(command, part)
    } else {
        refused(status, part)
    }
}

// A reply of this status to this command has the command's own body.
pub(crate) fn is_done(status: Status, command: u16) -> bool
    ensures { result ≡ is_done status.0 command }
{
    status == Status::SUCCESS || status == Status::BUFFER_OVERFLOW && command == QUERY_INFO
}

// What a reply of success says.
fn done(command: u16, part: &[u8]) -> Result<Rep, WireFault>
    ensures exact { seen result ≡ reply_of 0 (body_in Nothing command part.now) }
    ensures unknown { is_known command ≡ false → result ≡ Err (fault.Body body_fault.Value) }
    ensures of_reply { IfErr result (IsOfReply command) }
    ensures of_info { command ≡ QUERY_INFO → IfErr result (IsOfInfo part.now) }
{
    match read_body(command, part) {
        Ok(body) => Ok(Rep {
            status: Status::SUCCESS,
            body,
        }),
        Err(fault) => Err(fault),
    }
}

// What a reply of another status says.
fn refused(status: Status, part: &[u8]) -> Result<Rep, WireFault>
    ensures exact { seen result ≡ (if is_error part.now then reply_of status.0 (Some body.None) else None) }
    ensures of_body { IfErr result IsOfBody }
{
    match read_error_reply(part) {
        Ok(_) => Ok(Rep {
            status,
            body: RepBody::None,
        }),
        Err(fault) => Err(WireFault::Body(fault)),
    }
}

// The body of a reply of success, by the command of its request.
fn read_body(command: u16, part: &[u8]) -> Result<RepBody, WireFault>
    ensures exact { seen_body result ≡ body_in Nothing command part.now }
    ensures unknown { is_known command ≡ false → result ≡ Err (fault.Body body_fault.Value) }
    ensures of_reply { IfErr result (IsOfReply command) }
    ensures of_info { command ≡ QUERY_INFO → IfErr result (IsOfInfo part.now) }
{
    match command {
        CREATE => read_opened(part),
        CLOSE => read_closed(part),
        QUERY_INFO => read_info(part),
        _ => Err(WireFault::Body(BodyFault::Value)),
    }
}

// What a CREATE gave.
pub(crate) fn read_opened(part: &[u8]) -> Result<RepBody, WireFault>
    ensures exact { seen_body result ≡ opened_in Nothing part.now }
    ensures of_body { IfErr result IsOfBody }
{
    match read_create_reply(part) {
        Ok(create) => with_contexts(&create),
        Err(fault) => Err(WireFault::Body(fault)),
    }
}

// What a CREATE gave, with the contexts of its reply.
fn with_contexts(create: &CreateReply<'_>) -> Result<RepBody, WireFault>
    ensures exact { seen_body result ≡ opened_with Nothing (seen_create_reply create.now) (read_of true create.now.contexts.now) }
    ensures of_body { IfErr result IsOfBody }
{
    match read_contexts(create.contexts, true) {
        Ok(set) => Ok(opened(create, set)),
        Err(fault) => Err(WireFault::Body(fault)),
    }
}

// What a CREATE gave, by its fields and its contexts.
fn opened(create: &CreateReply<'_>, set: ContextSet) -> RepBody
    ensures { result ≡ body.Opened create.now.file_id create.now.action create.now.end_of_file create.now.attributes
        (granted_state create.now.oplock_level set.lease) set.durable }
{
    RepBody::Opened {
        fid: create.file_id,
        action: create.action,
        size: create.end_of_file,
        attributes: create.attributes,
        lease: granted(create.oplock_level, set.lease),
        durable: set.durable,
    }
}

// The lease state that was granted, where the oplock level says that there is a lease.
fn granted(level: u8, lease: Option<(Key, u32)>) -> u8
    ensures { result ≡ granted_state level lease }
{
    match lease {
        Some((_, state)) => {
            if level == LEASE {
                known_state(state)
            } else {
                0
            }
        }
        None => 0,
    }
}

// The bits of a lease's state that are known.
fn known_state(state: u32) -> u8
    ensures { result ≡ bit_and state 7 }
{
    (state & STATES) as u8
}

// That a file was closed.
fn read_closed(part: &[u8]) -> Result<RepBody, WireFault>
    ensures exact { seen_body result ≡ closed_in part.now }
    ensures of_body { IfErr result IsOfBody }
{
    match read_close_reply(part) {
        Ok(_) => Ok(RepBody::None),
        Err(fault) => Err(WireFault::Body(fault)),
    }
}

// What is known of a file.
fn read_info(part: &[u8]) -> Result<RepBody, WireFault>
    ensures exact { seen_body result ≡ info_in Nothing part.now }
    ensures of_info { IfErr result (IsOfInfo part.now) }
{
    match read_buffer_reply(part) {
        Ok(reply) => info_of(reply.buffer),
        Err(fault) => Err(WireFault::Body(fault)),
    }
}

// What the information of a file says.
fn info_of(info: &[u8]) -> Result<RepBody, WireFault>
    ensures exact { seen_body result ≡ info_of Nothing info.now }
    ensures of_info { IfErr result IsOfInformation }
{
    match read_all(info) {
        Ok(all) => Ok(known(&all)),
        Err(fault) => Err(WireFault::Info(fault)),
    }
}

// The same by its fields.
fn known(all: &All) -> RepBody
    ensures { result ≡ known_whole all.now }
{
    RepBody::Info {
        dir: all.standard.directory != 0,
        size: all.standard.end_of_file,
        read_only: all.basic.attributes & READ_ONLY != 0,
        links: all.standard.links,
        pending: all.standard.delete_pending != 0,
        number: all.internal.number,
    }
}
