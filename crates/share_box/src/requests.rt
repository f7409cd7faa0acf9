//! What a message asks for.

ghost use Rattle.std.specs.Prelude.{◌≡◌, ◌<◌, ◌≤◌, ◌∷◌, [], true, false, not, is_none, is_ok, None, Some, IfOk, IfSome, MatchOption, option_map, if◌then◌else◌, length, drop};
ghost use Rattle.smb_field.specs.Rows.{if_read};
ghost use Rattle.smb_body_a.specs.Empty.{empty_of};
ghost use Rattle.smb_body_a.specs.Negotiate.{negotiate_request_of};
ghost use Rattle.smb_body_a.specs.Session.{session_setup_request_of};
ghost use Rattle.smb_body_a.specs.Tree.{tree_connect_request_of};
ghost use Rattle.smb_body_b.specs.Close.{close_request_of};
ghost use Rattle.smb_body_b.specs.Create.{create_request_of, seen_create_request};
ghost use Rattle.smb_body_b.specs.Contexts.{read_of};
ghost use Rattle.smb_body_c.specs.Info.{query_info_request_of};
ghost use Rattle.share_state.specs.State.{has};
ghost use Rattle.fs_plain.specs.Wire.{units_in};
ghost use Rattle.fs_plain.specs.Requests.{wire_request, is_aside, create_asked, close_asked, is_query, query_asked, by_command, asked_lease, WireRequest};
ghost use Rattle.share_box.specs.Parsed.{wire_request_of, is_taken, is_plain, are_plain};

use share_state::Req;
use smb_base::{NoMemory, Units};
use smb_body_a::{
    read_empty, read_negotiate_request, read_session_setup_request, read_tree_connect_request,
};
use smb_body_b::{
    ContextSet, CreateRequest, read_close_request, read_contexts, read_create_request,
};
use smb_body_c::{QueryInfoRequest, read_query_info_request};
use smb_head::command::{
    CLOSE, CREATE, ECHO, LOGOFF, NEGOTIATE, QUERY_INFO, SESSION_SETUP, TREE_CONNECT,
    TREE_DISCONNECT,
};
use smb_head::read_head;
use smb_le::get_u16;
use std::alloc::Global;

/// Information of a file (MS-SMB2 2.2.37).
const FILE: u8 = 1;

/// FileAllInformation (MS-FSCC 2.4).
const ALL: u8 = 18;

/// FileStandardInformation (MS-FSCC 2.4).
pub(crate) const STANDARD: u8 = 5;

/// The oplock level that asks for a lease (MS-SMB2 2.2.13).
const LEASE: u8 = 0xFF;

/// The flag of replies (MS-SMB2 2.2.1.2).
const REPLY: u32 = 1;

/// The flag of a request that goes by the last CREATE before it in its frame.
const RELATED: u32 = 4;

/// What a message asks for.
#[derive(Debug, Drop)]
pub enum ParsedRequest {
    /// Something of the connection itself: a step of a mount, an ECHO, or the end of a tree or a session.
    Aside,
    /// This of the share, and whether it is related to the CREATE before it in its frame (MS-SMB2 3.3.5.2.7.2).
    Share(bool, Req),
}

// The flags have this one.
fn has(flags: u32, flag: u32) -> bool
    ensures { result ≡ has flags flag }
{
    flags & flag != 0
}

// What a message asks for, if it is a request that is known.
#[tactic(auto, unfolding(fs_plain::specs::Requests::wire_request))]
pub(crate) fn what_is_asked(
    alloc: Global,
    message: &[u8],
) -> Result<Option<ParsedRequest>, NoMemory>
    ensures exact { IfOk result (λ a. option_map wire_request_of a ≡ wire_request message.now) }
    ensures taken { IfOk result (λ a. IfSome a (λ x. is_taken x ≡ true)) }
{
    let Ok(head) = read_head(message) else {
        return Ok(None);
    };
    if has(head.flags.0, REPLY) {
        return Ok(None);
    }
    asked_by(alloc, head.command, has(head.flags.0, RELATED), message)
}

// What a message of this command asks for.
fn asked_by(
    alloc: Global,
    command: u16,
    related: bool,
    message: &[u8],
) -> Result<Option<ParsedRequest>, NoMemory>
    ensures exact { IfOk result (λ a. option_map wire_request_of a ≡ by_command command related message.now) }
    ensures taken { IfOk result (λ a. IfSome a (λ x. is_taken x ≡ true)) }
{
    match command {
        CREATE => asked_create(alloc, related, message),
        CLOSE => Ok(asked_close(related, message)),
        QUERY_INFO => Ok(asked_query(related, message)),
        command => Ok(asked_aside(command, message)),
    }
}

// A request of the connection itself, if its body reads.
fn asked_aside(command: u16, message: &[u8]) -> Option<ParsedRequest>
    ensures exact { option_map wire_request_of result ≡ (if is_aside command message.now then Some WireRequest.Aside else None) }
    ensures taken { IfSome result (λ x. is_taken x ≡ true) }
{
    if reads_aside(command, message) {
        Some(ParsedRequest::Aside)
    } else {
        None
    }
}

// The command is one of those, and its body reads.
fn reads_aside(command: u16, message: &[u8]) -> bool
    ensures { result ≡ is_aside command message.now }
{
    match command {
        NEGOTIATE => reads_negotiate(message),
        SESSION_SETUP => reads_session(message),
        TREE_CONNECT => reads_tree(message),
        LOGOFF => reads_empty(message),
        TREE_DISCONNECT => reads_empty(message),
        ECHO => reads_empty(message),
        _ => false,
    }
}

fn reads_negotiate(message: &[u8]) -> bool
    ensures { result ≡ is_ok (negotiate_request_of message.now) }
{
    read_negotiate_request(message).is_ok()
}

fn reads_session(message: &[u8]) -> bool
    ensures { result ≡ is_ok (session_setup_request_of message.now) }
{
    read_session_setup_request(message).is_ok()
}

fn reads_tree(message: &[u8]) -> bool
    ensures { result ≡ is_ok (tree_connect_request_of message.now) }
{
    read_tree_connect_request(message).is_ok()
}

fn reads_empty(message: &[u8]) -> bool
    ensures { result ≡ is_ok (empty_of message.now) }
{
    read_empty(message).is_ok()
}

// A CREATE, if it reads and wants neither a lease nor a durable open, new or old.
fn asked_create(
    alloc: Global,
    related: bool,
    message: &[u8],
) -> Result<Option<ParsedRequest>, NoMemory>
    ensures exact { IfOk result (λ a. option_map wire_request_of a ≡ if_read (create_request_of message.now) (create_asked related) None) }
    ensures taken { IfOk result (λ a. IfSome a (λ x. is_taken x ≡ true)) }
{
    match read_create_request(message) {
        Ok(create) => plain_create(alloc, related, &create),
        Err(_) => Ok(None),
    }
}

// The same by its fields.
fn plain_create(
    alloc: Global,
    related: bool,
    create: &CreateRequest<'_>,
) -> Result<Option<ParsedRequest>, NoMemory>
    ensures exact { IfOk result (λ a. option_map wire_request_of a ≡ create_asked related (seen_create_request create.now)) }
    ensures taken { IfOk result (λ a. IfSome a (λ x. is_taken x ≡ true)) }
{
    if !are_plain(create.oplock_level, create.contexts) {
        return Ok(None);
    }
    Ok(Some(ParsedRequest::Share(
        related,
        Req::Create {
            path: units_of(alloc, create.name)?,
            access: create.access,
            share: create.share,
            disposition: create.disposition,
            options: create.options,
            attributes: create.attributes,
            lease: None,
            durable: false,
        },
    )))
}

// Contexts that read, and that want neither a lease, at this oplock level, nor a durable open, new or old.
fn are_plain(level: u8, contexts: &[u8]) -> bool
    ensures { result ≡ are_plain level (read_of false contexts.now) }
{
    match read_contexts(contexts, false) {
        Ok(set) => is_plain(level, set),
        Err(_) => false,
    }
}

// The contexts want neither a lease, at this oplock level, nor a durable open, new or old.
fn is_plain(level: u8, contexts: ContextSet) -> bool
    ensures { result ≡ is_plain level contexts }
{
    !wants_lease(level, &contexts) && !contexts.durable && contexts.reclaim.is_none()
}

// The contexts want a lease, and the oplock level asks for one.
fn wants_lease(level: u8, contexts: &ContextSet) -> bool
    ensures { not result ≡ is_none (asked_lease level contexts.now.lease) }
{
    level == LEASE && contexts.lease.is_some()
}

// The first unit of UTF-16 that these bytes are, the low byte first, and the bytes after it.
#[tactic(auto, using(crate::proofs::Units::units_first, crate::proofs::Units::units_none))]
fn first_unit(bytes: &[u8]) -> Option<(u16, &[u8])>
    ensures units { MatchOption result (units_in bytes.now ≡ []) (λ p. units_in bytes.now ≡ p.0 ∷ units_in p.1.now) }
    ensures shorter { IfSome result (λ p. length p.1.now < length bytes.now) }
{
    if bytes.len() < 2 {
        return None;
    }
    Some((get_u16(bytes, 0), behind_unit(bytes)))
}

// The bytes after the first two.
fn behind_unit(bytes: &[u8]) -> &[u8]
    requires { 2 ≤ length bytes.now }
    ensures { result.now ≡ drop 2 bytes.now }
{
    &bytes[2..]
}

// The units of UTF-16 that these bytes are.
fn units_of(alloc: Global, bytes: &[u8]) -> Result<Units, NoMemory>
    ensures { IfOk result (λ u. u ≡ units_in bytes.now) }
{
    let mut units = Units::new(alloc);
    let mut rest = bytes;
    while let Some((unit, others)) = first_unit(rest) {
        units.push(unit)?;
        rest = others;
    }
    Ok(units)
}

// A CLOSE, if it reads.
fn asked_close(related: bool, message: &[u8]) -> Option<ParsedRequest>
    ensures exact { option_map wire_request_of result ≡ if_read (close_request_of message.now) (close_asked related) None }
    ensures taken { IfSome result (λ x. is_taken x ≡ true) }
{
    match read_close_request(message) {
        Ok(close) => Some(ParsedRequest::Share(related, Req::Close { fid: close.file_id })),
        Err(_) => None,
    }
}

// A QUERY_INFO for all that is known of a file, or for FileStandardInformation, if it reads.
fn asked_query(related: bool, message: &[u8]) -> Option<ParsedRequest>
    ensures exact { option_map wire_request_of result ≡ if_read (query_info_request_of message.now) (query_asked related) None }
    ensures taken { IfSome result (λ x. is_taken x ≡ true) }
{
    match read_query_info_request(message) {
        Ok(query) => {
            if is_query(&query) {
                Some(ParsedRequest::Share(related, Req::Query { fid: query.file_id }))
            } else {
                None
            }
        }
        Err(_) => None,
    }
}

// The classes of information of a file that are known.
fn is_query(query: &QueryInfoRequest) -> bool
    ensures { result ≡ is_query query.now }
{
    query.info_type == FILE && (query.class == ALL || query.class == STANDARD)
}
