//! SESSION_SETUP (MS-SMB2 2.2.5 and 2.2.6).

ghost use Rattle.std.specs.Prelude.{◌≡◌, ◌^◌, ◌<◌, IsOk, length};
ghost use Rattle.smb_le.specs.Numbers.{number_at};
ghost use Rattle.smb_field.specs.Rows.{seen_as};
ghost use Rattle.smb_field.specs.Body.{Strays, Reads, WritesBody};
ghost use Rattle.smb_body_a.specs.Session.{session_setup_request, IsSessionSetupRequest, session_setup_reply, IsSessionSetupReply, session_setup_request_of, seen_session_request, session_setup_reply_of, seen_session_reply};
ghost use Rattle.smb_body_a.specs.declared.session.SessionSetupRequest.{SessionSetupRequest};
ghost use Rattle.smb_body_a.specs.declared.session.SessionSetupReply.{SessionSetupReply};

use smb_base::NoMemory;
use smb_field::{BodyFault, Field, lent, put_varied};
use smb_le::{get_u16, get_u64};

/// The SESSION_SETUP request (MS-SMB2 2.2.5).
#[derive(Drop)]
pub struct SessionSetupRequest<'a> {
    /// The session that this one takes the place of, 0 where there is none.
    pub previous_session_id: u64,
    /// The security token.
    pub buffer: &'a [u8],
}

/// The SESSION_SETUP reply (MS-SMB2 2.2.6).
#[derive(Drop)]
pub struct SessionSetupReply<'a> {
    /// Whether the session is a guest's (1) or an anonymous one (2).
    pub session_flags: u16,
    /// The security token.
    pub buffer: &'a [u8],
}

/// Reads the body of a SESSION_SETUP request from a whole message, header and body. The token is lent from the message. What
/// stands
/// in the fields that have one written value is not looked at.
#[tactic(auto, unfolding(crate::specs::Session::session_setup_request_of))]
pub fn read_session_setup_request(part: &[u8]) -> Result<SessionSetupRequest<'_>, BodyFault>
    ensures exact { seen_as seen_session_request result ≡ session_setup_request_of part.now }
    ensures reads { Reads 25 (λ (x : SessionSetupRequest). IsSessionSetupRequest x part.now) ⊥
        (Strays 88 (number_at 2 76 part.now) (number_at 2 78 part.now) part.now)
        part.now result }
    ensures only { (x : SessionSetupRequest) → IsSessionSetupRequest x part.now → IsOk result }
{
    if part.len() < 88 {
        return Err(BodyFault::Short);
    }
    if get_u16(part, 64) != 25 {
        return Err(BodyFault::Size);
    }
    let Some(buffer) = lent(
        part,
        88,
        u32::from(get_u16(part, 76)),
        u32::from(get_u16(part, 78)),
    ) else {
        return Err(BodyFault::Offset);
    };
    Ok(SessionSetupRequest {
        previous_session_id: get_u64(part, 80),
        buffer,
    })
}

/// Appends the body of a SESSION_SETUP request. For want of memory nothing is changed.
pub fn write_session_setup_request(
    out: &mut Vec<u8>,
    x: &SessionSetupRequest<'_>,
) -> Result<(), NoMemory>
    requires { length x.now.buffer.now < 2 ^ 16 }
    ensures { WritesBody 25 (session_setup_request x.now) x.now.buffer.now out.old.items out.new.items result }
{
    put_varied(
        out,
        25,
        &[
            Field::Any8(0),
            Field::Any8(1),
            Field::Any32(0),
            Field::Any32(0),
            Field::Offset16,
            Field::U16(x.buffer.len() as u16),
            Field::U64(x.previous_session_id),
        ],
        x.buffer,
    )
}

/// Reads the body of a SESSION_SETUP reply from a whole message, header and body. The token is lent from the message.
#[tactic(auto, unfolding(crate::specs::Session::session_setup_reply_of))]
pub fn read_session_setup_reply(part: &[u8]) -> Result<SessionSetupReply<'_>, BodyFault>
    ensures exact { seen_as seen_session_reply result ≡ session_setup_reply_of part.now }
    ensures reads { Reads 9 (λ (x : SessionSetupReply). IsSessionSetupReply x part.now) ⊥
        (Strays 72 (number_at 2 68 part.now) (number_at 2 70 part.now) part.now)
        part.now result }
    ensures only { (x : SessionSetupReply) → IsSessionSetupReply x part.now → IsOk result }
{
    if part.len() < 72 {
        return Err(BodyFault::Short);
    }
    if get_u16(part, 64) != 9 {
        return Err(BodyFault::Size);
    }
    let Some(buffer) = lent(
        part,
        72,
        u32::from(get_u16(part, 68)),
        u32::from(get_u16(part, 70)),
    ) else {
        return Err(BodyFault::Offset);
    };
    Ok(SessionSetupReply {
        session_flags: get_u16(part, 66),
        buffer,
    })
}

/// Appends the body of a SESSION_SETUP reply. For want of memory nothing is changed.
pub fn write_session_setup_reply(
    out: &mut Vec<u8>,
    x: &SessionSetupReply<'_>,
) -> Result<(), NoMemory>
    requires { length x.now.buffer.now < 2 ^ 16 }
    ensures { WritesBody 9 (session_setup_reply x.now) x.now.buffer.now out.old.items out.new.items result }
{
    put_varied(
        out,
        9,
        &[
            Field::U16(x.session_flags),
            Field::Offset16,
            Field::U16(x.buffer.len() as u16),
        ],
        x.buffer,
    )
}
