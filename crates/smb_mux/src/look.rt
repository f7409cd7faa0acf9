//! What a message is to a client with requests in flight.

ghost use Rattle.std.specs.Prelude.{◌≡◌, Some};
ghost use Rattle.smb_mux.specs.Judged.{notice_in, looked, looked_for, wrong, if_sound};

use crate::bodies::{error_fault, reply_fault};
use crate::fault::{Malformed, TakeFault};
use crate::taken::BreakNote;
use bitflags::Flags;
use smb_base::{Mid, Status};
use smb_body_c::read_lease_break;
use smb_credit::NO_REQUEST;
use smb_field::BodyFault;
use smb_head::Head;
use smb_head::command::OPLOCK_BREAK;

/// The flag of a notice that wants to be acknowledged (MS-SMB2 2.2.23.2).
const ACK_REQUIRED: u32 = 1;

/// The bits of a lease's state (MS-SMB2 2.2.13.2.8).
const STATES: u32 = 7;

/// What a message is.
#[derive(Clone, Copy)]
pub enum Look {
    /// The final reply to the request with this id.
    Final(Mid),
    /// An interim reply to the request with this id.
    Interim(Mid),
    /// The notice that a lease is broken.
    Notice(BreakNote),
    /// What may not come.
    Fault(TakeFault),
}

// What a message with this header is, where its id is that of a request with this command, or of none.
pub(crate) fn look_under(head: &Head, part: &[u8], command: Option<u16>) -> Look
    ensures { result ≡ looked command head.now part.now }
{
    if head.mid == NO_REQUEST {
        return match notice_in(head, part) {
            Some(note) => Look::Notice(note),
            None => wrong(BodyFault::Value),
        };
    }
    match command {
        Some(command) => look_for(head, part, command),
        None => Look::Fault(TakeFault::Stranger(head.mid)),
    }
}

// What a message is that has the id of a request with this command.
fn look_for(head: &Head, part: &[u8], command: u16) -> Look
    ensures { result ≡ looked_for (Some command) head.now part.now }
{
    if !head.is_reply_to(command) {
        return wrong(BodyFault::Value);
    }
    if head.is_interim() {
        if_sound(Look::Interim(head.mid), error_fault(part))
    } else {
        if_sound(
            Look::Final(head.mid),
            reply_fault(head.status, head.command, part),
        )
    }
}

// What has this fault in its body.
fn wrong(fault: BodyFault) -> Look
    ensures { result ≡ wrong fault }
{
    Look::Fault(TakeFault::Malformed(Malformed::Body(fault)))
}

// A message that is good where its body is.
fn if_sound(look: Look, fault: Option<BodyFault>) -> Look
    ensures { result ≡ if_sound look fault }
{
    match fault {
        None => look,
        Some(fault) => wrong(fault),
    }
}

// The notice that a lease is broken, where a message is one.
fn notice_in(head: &Head, part: &[u8]) -> Option<BreakNote>
    ensures { result ≡ notice_in head.now part.now }
{
    if !head.is_reply_to(OPLOCK_BREAK) || head.status != Status::SUCCESS {
        return None;
    }
    match read_lease_break(part) {
        Ok(notice) => Some(BreakNote {
            key: notice.key,
            to: (notice.new & STATES) as u8,
            wants_ack: notice.flags & ACK_REQUIRED != 0,
        }),
        Err(_) => None,
    }
}
