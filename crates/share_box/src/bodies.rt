//! The bodies of replies.

ghost use Rattle.std.specs.Prelude.{◌≡◌, ◌++◌, ◌≤◌, [], OnOk, length};
ghost use Rattle.smb_field.specs.Body.{spelling, IsReadAgain};
ghost use Rattle.smb_field.specs.Structure.{spelling_in};
ghost use Rattle.smb_info.specs.Attributes.{all as fields_of_all, standard as fields_of_standard};
ghost use Rattle.share_state.specs.Reply.{attributes_of};
ghost use Rattle.share_box.specs.Again.{IsInfoAgain, IsDoneAgain, IsRepAgain, IsBodyAgain};
ghost use Rattle.share_box.specs.Bodies.{negotiated, session, tree, error, opened, closed, all, standard, buffer, body_done, body_of_rep, body_of, status_of};

use share_state::{Rep, RepBody};
use smb_base::{Fid, NoMemory, Status};
use smb_body_a::{
    Empty, NegotiateReply, SessionSetupReply, TreeConnectReply, write_empty, write_negotiate_reply,
    write_session_setup_reply, write_tree_connect_reply,
};
use smb_body_b::{CloseReply, CreateReply, write_close_reply, write_create_reply};
use smb_body_c::{BufferReply, ErrorReply, write_buffer_reply, write_error_reply};
use smb_info::{All, Basic, Internal, Standard, write_all, write_standard};
use std::alloc::Global;

/// SMB 2.1 (MS-SMB2 2.2.4).
const DIALECT: u16 = 0x0210;

/// Signing is enabled (MS-SMB2 2.2.4).
const SIGNING_ENABLED: u16 = 1;

/// LEASING and LARGE_MTU (MS-SMB2 2.2.4).
const CAPABILITIES: u32 = 6;

/// The greatest sizes of a read, a write and a transaction.
const MAX_SIZE: u32 = 1_048_576;

/// IS_NULL: the session is an anonymous one (MS-SMB2 2.2.6).
const IS_NULL: u16 = 2;

/// A disk (MS-SMB2 2.2.10).
const DISK: u8 = 1;

/// All that a user may be allowed (MS-SMB2 2.2.13.1).
const ALL_ACCESS: u32 = 0x001F_01FF;

/// The message that asks a client to prove itself (MS-NLMP 2.2.1.2): its name, type 2, no target name, flags that say UTF-16, a target
/// and NTLM, no challenge, no target information and no version.
const CHALLENGE: [u8; 56] = [
    b'N', b'T', b'L', b'M', b'S', b'S', b'P', 0, 2, 0, 0, 0, 0, 0, 0, 0, 56, 0, 0, 0, 5, 2, 0, 0,
    0, 0, 0, 0, 0, 0, 0, 0, 0, 0, 0, 0, 0, 0, 0, 0, 0, 0, 0, 0, 56, 0, 0, 0, 0, 0, 0, 0, 0, 0, 0,
    0,
];

/// What a reply says.
#[derive(Drop)]
pub enum Said {
    /// What the server can do.
    Negotiated,
    /// A session needs one more message.
    Challenge,
    /// A session was made.
    Session,
    /// A tree was connected.
    Tree,
    /// That it was done.
    Done,
    /// This reply of the share.
    Share(Rep),
}

// The status of a reply.
pub(crate) fn status_of(said: &Said) -> Status
    ensures { result ≡ status_of said.now }
{
    match said {
        Said::Challenge => Status::MORE_PROCESSING_REQUIRED,
        Said::Share(rep) => rep.status,
        _ => Status::SUCCESS,
    }
}

// Appends the body of a reply, whose information of a file is FileStandardInformation where it is told in part. For want of memory
// nothing is changed.
#[tactic(auto, unfolding(crate::specs::Bodies::body_of, crate::specs::Again::IsBodyAgain))]
pub(crate) fn put_body(
    alloc: Global,
    out: &mut Vec<u8>,
    in_part: bool,
    said: &Said,
) -> Result<(), NoMemory>
    ensures ok { OnOk result (out.new.items ≡ out.old.items ++ body_of in_part said.now) }
    ensures len { OnOk result (length (body_of in_part said.now) ≤ 1000) }
    ensures again { OnOk result (IsBodyAgain in_part said.now) }
{
    match said {
        Said::Negotiated => put_negotiated(out),
        Said::Challenge => put_session(out, 0, &CHALLENGE),
        Said::Session => put_session(out, IS_NULL, &[]),
        Said::Tree => put_tree(out),
        Said::Done => write_empty(out, &Empty),
        Said::Share(rep) => put_rep(alloc, out, in_part, rep),
    }
}

fn put_negotiated(out: &mut Vec<u8>) -> Result<(), NoMemory>
    ensures ok { OnOk result (out.new.items ≡ out.old.items ++ spelling 65 negotiated []) }
    ensures len { OnOk result (length (spelling 65 negotiated []) ≤ 1000) }
    ensures again { OnOk result (IsReadAgain 65 negotiated []) }
{
    write_negotiate_reply(
        out,
        &NegotiateReply {
            security_mode: SIGNING_ENABLED,
            dialect: DIALECT,
            server_guid: [0xAA; 16],
            capabilities: CAPABILITIES,
            max_transact: MAX_SIZE,
            max_read: MAX_SIZE,
            max_write: MAX_SIZE,
            system_time: 0,
            start_time: 0,
            buffer: &[],
        },
    )
}

fn put_session(out: &mut Vec<u8>, session_flags: u16, buffer: &[u8]) -> Result<(), NoMemory>
    requires { length buffer.now ≤ 56 }
    ensures ok { OnOk result (out.new.items ≡ out.old.items ++ spelling 9 (session session_flags (length buffer.now)) buffer.now) }
    ensures len { OnOk result (length (spelling 9 (session session_flags (length buffer.now)) buffer.now) ≤ 1000) }
    ensures again { OnOk result (IsReadAgain 9 (session session_flags (length buffer.now)) buffer.now) }
{
    write_session_setup_reply(
        out,
        &SessionSetupReply {
            session_flags,
            buffer,
        },
    )
}

fn put_tree(out: &mut Vec<u8>) -> Result<(), NoMemory>
    ensures ok { OnOk result (out.new.items ≡ out.old.items ++ spelling 16 tree []) }
    ensures len { OnOk result (length (spelling 16 tree []) ≤ 1000) }
    ensures again { OnOk result (IsReadAgain 16 tree []) }
{
    write_tree_connect_reply(
        out,
        &TreeConnectReply {
            share_type: DISK,
            share_flags: 0,
            capabilities: 0,
            maximal_access: ALL_ACCESS,
        },
    )
}

// The body of a reply of the share: that of an error where it was not done.
fn put_rep(alloc: Global, out: &mut Vec<u8>, in_part: bool, rep: &Rep) -> Result<(), NoMemory>
    ensures ok { OnOk result (out.new.items ≡ out.old.items ++ body_of_rep in_part rep.now) }
    ensures len { OnOk result (length (body_of_rep in_part rep.now) ≤ 1000) }
    ensures again { OnOk result (IsRepAgain in_part rep.now) }
{
    if rep.status.0 == 0 {
        put_done(alloc, out, in_part, &rep.body)
    } else {
        put_error(out)
    }
}

// The body of what was done on the share.
fn put_done(alloc: Global, out: &mut Vec<u8>, in_part: bool, body: &RepBody) -> Result<(), NoMemory>
    ensures ok { OnOk result (out.new.items ≡ out.old.items ++ body_done in_part body.now) }
    ensures len { OnOk result (length (body_done in_part body.now) ≤ 1000) }
    ensures again { OnOk result (IsDoneAgain in_part body.now) }
{
    match body {
        RepBody::Opened {
            fid,
            action,
            size,
            attributes,
            ..
        } => put_opened(out, *fid, *action, *size, *attributes),
        RepBody::Info {
            dir,
            size,
            read_only,
            links,
            pending,
            number,
        } => {
            if in_part {
                put_standard(alloc, out, &standard_of(*dir, *size, *links, *pending))
            } else {
                let all = info_of(*dir, *size, *read_only, *links, *pending, *number);
                put_info(alloc, out, &all)
            }
        }
        _ => put_closed(out),
    }
}

fn put_error(out: &mut Vec<u8>) -> Result<(), NoMemory>
    ensures ok { OnOk result (out.new.items ≡ out.old.items ++ spelling 9 error []) }
    ensures len { OnOk result (length (spelling 9 error []) ≤ 1000) }
    ensures again { OnOk result (IsReadAgain 9 error []) }
{
    write_error_reply(
        out,
        &ErrorReply {
            context_count: 0,
            bytes: &[],
        },
    )
}

fn put_opened(
    out: &mut Vec<u8>,
    file_id: Fid,
    action: u32,
    size: u64,
    attributes: u32,
) -> Result<(), NoMemory>
    ensures ok { OnOk result (out.new.items ≡ out.old.items ++ spelling 89 (opened file_id action size attributes) []) }
    ensures len { OnOk result (length (spelling 89 (opened file_id action size attributes) []) ≤ 1000) }
    ensures again { OnOk result (IsReadAgain 89 (opened file_id action size attributes) []) }
{
    write_create_reply(
        out,
        &CreateReply {
            oplock_level: 0,
            flags: 0,
            action,
            times: [0; 4],
            allocation_size: size,
            end_of_file: size,
            attributes,
            file_id,
            contexts: &[],
        },
    )
}

fn put_closed(out: &mut Vec<u8>) -> Result<(), NoMemory>
    ensures ok { OnOk result (out.new.items ≡ out.old.items ++ spelling 60 closed []) }
    ensures len { OnOk result (length (spelling 60 closed []) ≤ 1000) }
    ensures again { OnOk result (IsReadAgain 60 closed []) }
{
    write_close_reply(
        out,
        &CloseReply {
            flags: 0,
            times: [0; 4],
            allocation_size: 0,
            end_of_file: 0,
            attributes: 0,
        },
    )
}

// The attributes of a file (MS-FSCC 2.6): DIRECTORY and READONLY, or NORMAL where it has neither.
fn attributes_of(dir: bool, read_only: bool) -> u32
    ensures { result ≡ attributes_of dir read_only }
{
    match (dir, read_only) {
        (true, true) => 0x11,
        (true, false) => 0x10,
        (false, true) => 1,
        (false, false) => 0x80,
    }
}

// What FileStandardInformation has of a file.
fn standard_of(dir: bool, size: u64, links: u32, pending: bool) -> Standard
    ensures { fields_of_standard result ≡ standard dir size links pending }
{
    Standard {
        allocation_size: size,
        end_of_file: size,
        links,
        delete_pending: u8::from(pending),
        directory: u8::from(dir),
    }
}

// All that is known of a file.
fn info_of(dir: bool, size: u64, read_only: bool, links: u32, pending: bool, number: u64) -> All
    ensures { fields_of_all result ≡ all dir size read_only links pending number }
{
    All {
        basic: Basic {
            times: [0; 4],
            attributes: attributes_of(dir, read_only),
        },
        standard: Standard {
            allocation_size: size,
            end_of_file: size,
            links,
            delete_pending: u8::from(pending),
            directory: u8::from(dir),
        },
        internal: Internal { number },
        ea_size: 0,
        access: 0,
        position: 0,
        mode: 0,
        alignment: 0,
    }
}

fn put_info(alloc: Global, out: &mut Vec<u8>, all: &All) -> Result<(), NoMemory>
    ensures ok { OnOk result (out.new.items ≡ out.old.items ++ spelling 9 (buffer 100) (spelling_in (fields_of_all all.now) [])) }
    ensures len { OnOk result (length (spelling 9 (buffer 100) (spelling_in (fields_of_all all.now) [])) ≤ 1000) }
    ensures again { OnOk result (IsInfoAgain 100 (fields_of_all all.now)) }
{
    let mut info = Vec::new(alloc);
    write_all(&mut info, all)?;
    write_buffer_reply(out, &BufferReply { buffer: &info })
}

fn put_standard(alloc: Global, out: &mut Vec<u8>, standard: &Standard) -> Result<(), NoMemory>
    ensures ok { OnOk result (out.new.items ≡ out.old.items ++ spelling 9 (buffer 24) (spelling_in (fields_of_standard standard.now) [])) }
    ensures len { OnOk result (length (spelling 9 (buffer 24) (spelling_in (fields_of_standard standard.now) [])) ≤ 1000) }
    ensures again { OnOk result (IsInfoAgain 24 (fields_of_standard standard.now)) }
{
    let mut info = Vec::new(alloc);
    write_standard(&mut info, standard)?;
    write_buffer_reply(out, &BufferReply { buffer: &info })
}
