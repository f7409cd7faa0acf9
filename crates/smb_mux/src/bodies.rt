//! What is wrong with the body of a reply, if anything is.

ghost use Rattle.std.specs.Prelude.{◌≡◌, true, false};
ghost use Rattle.smb_body_b.specs.Contexts.{read_of};
ghost use Rattle.smb_field.specs.Faults.{fault_of, error_fault};
ghost use Rattle.smb_mux.specs.Bodies.{negotiate_fault, session_fault, read_fault, buffer_fault, create_fault, contexts_fault, connection_fault, content_fault, done_fault, is_empty_reply, is_done, reply_fault};

use smb_base::Status;
use smb_body_a::{
    read_empty, read_negotiate_reply, read_session_setup_reply, read_tree_connect_reply,
};
use smb_body_b::{
    read_close_reply, read_contexts, read_create_reply, read_read_reply, read_write_reply,
};
use smb_body_c::{read_buffer_reply, read_error_reply, read_lease_ack, read_set_info_reply};
use smb_field::BodyFault;
use smb_head::command::{
    CLOSE, CREATE, ECHO, FLUSH, LOCK, LOGOFF, NEGOTIATE, OPLOCK_BREAK, QUERY_DIRECTORY, QUERY_INFO,
    READ, SESSION_SETUP, SET_INFO, TREE_CONNECT, TREE_DISCONNECT, WRITE,
};

// What is wrong with a reply of this status to this command.
pub(crate) fn reply_fault(status: Status, command: u16, part: &[u8]) -> Option<BodyFault>
    ensures { result ≡ reply_fault status.0 command part.now }
{
    if is_done(status, command) {
        done_fault(command, part)
    } else {
        error_fault(part)
    }
}

// A reply of this status has the body of its command.
fn is_done(status: Status, command: u16) -> bool
    ensures { result ≡ is_done status.0 command }
{
    status == Status::SUCCESS
        || status == Status::BUFFER_OVERFLOW && command == QUERY_INFO
        || status == Status::MORE_PROCESSING_REQUIRED && command == SESSION_SETUP
}

// A reply of success.
fn done_fault(command: u16, part: &[u8]) -> Option<BodyFault>
    ensures { result ≡ done_fault command part.now }
{
    if command == CREATE {
        create_fault(part)
    } else if command == CLOSE {
        close_fault(part)
    } else if is_empty_reply(command) {
        empty_fault(part)
    } else {
        content_fault(command, part)
    }
}

// Whether a command is answered with no field.
fn is_empty_reply(command: u16) -> bool
    ensures { result ≡ is_empty_reply command }
{
    command == LOGOFF
        || command == TREE_DISCONNECT
        || command == FLUSH
        || command == LOCK
        || command == ECHO
}

// One that moves bytes or entries of a directory, or asks for information.
fn content_fault(command: u16, part: &[u8]) -> Option<BodyFault>
    ensures { result ≡ content_fault command part.now }
{
    if command == READ {
        read_fault(part)
    } else if command == WRITE {
        write_fault(part)
    } else if command == QUERY_DIRECTORY || command == QUERY_INFO {
        buffer_fault(part)
    } else if command == SET_INFO {
        set_fault(part)
    } else if command == OPLOCK_BREAK {
        acknowledged_fault(part)
    } else {
        connection_fault(command, part)
    }
}

// One of the connection itself.
fn connection_fault(command: u16, part: &[u8]) -> Option<BodyFault>
    ensures { result ≡ connection_fault command part.now }
{
    if command == NEGOTIATE {
        negotiate_fault(part)
    } else if command == SESSION_SETUP {
        session_fault(part)
    } else if command == TREE_CONNECT {
        tree_fault(part)
    } else {
        Some(BodyFault::Value)
    }
}

// A CREATE's reply and its contexts.
fn create_fault(part: &[u8]) -> Option<BodyFault>
    ensures { result ≡ create_fault part.now }
{
    match read_create_reply(part) {
        Ok(reply) => contexts_fault(reply.contexts),
        Err(fault) => Some(fault),
    }
}

fn contexts_fault(list: &[u8]) -> Option<BodyFault>
    ensures { result ≡ contexts_fault (read_of true list.now) }
{
    match read_contexts(list, true) {
        Ok(_) => None,
        Err(fault) => Some(fault),
    }
}

pub(crate) fn error_fault(part: &[u8]) -> Option<BodyFault>
    ensures { result ≡ error_fault part.now }
{
    match read_error_reply(part) {
        Ok(_) => None,
        Err(fault) => Some(fault),
    }
}

fn negotiate_fault(part: &[u8]) -> Option<BodyFault>
    ensures { result ≡ negotiate_fault part.now }
{
    match read_negotiate_reply(part) {
        Ok(_) => None,
        Err(fault) => Some(fault),
    }
}

fn session_fault(part: &[u8]) -> Option<BodyFault>
    ensures { result ≡ session_fault part.now }
{
    match read_session_setup_reply(part) {
        Ok(_) => None,
        Err(fault) => Some(fault),
    }
}

fn tree_fault(part: &[u8]) -> Option<BodyFault>
    ensures { result ≡ fault_of 16 false part.now }
{
    match read_tree_connect_reply(part) {
        Ok(_) => None,
        Err(fault) => Some(fault),
    }
}

fn close_fault(part: &[u8]) -> Option<BodyFault>
    ensures { result ≡ fault_of 60 false part.now }
{
    match read_close_reply(part) {
        Ok(_) => None,
        Err(fault) => Some(fault),
    }
}

fn empty_fault(part: &[u8]) -> Option<BodyFault>
    ensures { result ≡ fault_of 4 false part.now }
{
    match read_empty(part) {
        Ok(_) => None,
        Err(fault) => Some(fault),
    }
}

fn read_fault(part: &[u8]) -> Option<BodyFault>
    ensures { result ≡ read_fault part.now }
{
    match read_read_reply(part) {
        Ok(_) => None,
        Err(fault) => Some(fault),
    }
}

fn write_fault(part: &[u8]) -> Option<BodyFault>
    ensures { result ≡ fault_of 17 false part.now }
{
    match read_write_reply(part) {
        Ok(_) => None,
        Err(fault) => Some(fault),
    }
}

fn buffer_fault(part: &[u8]) -> Option<BodyFault>
    ensures { result ≡ buffer_fault part.now }
{
    match read_buffer_reply(part) {
        Ok(_) => None,
        Err(fault) => Some(fault),
    }
}

fn set_fault(part: &[u8]) -> Option<BodyFault>
    ensures { result ≡ fault_of 2 false part.now }
{
    match read_set_info_reply(part) {
        Ok(_) => None,
        Err(fault) => Some(fault),
    }
}

fn acknowledged_fault(part: &[u8]) -> Option<BodyFault>
    ensures { result ≡ fault_of 36 false part.now }
{
    match read_lease_ack(part) {
        Ok(_) => None,
        Err(fault) => Some(fault),
    }
}
