//! NEGOTIATE (MS-SMB2 2.2.3 and 2.2.4).

ghost use Rattle.std.specs.Prelude.{◌≡◌, ◌*◌, ◌/◌, ◌%◌, ◌^◌, ◌<◌, IsOk, length};
ghost use Rattle.smb_le.specs.Numbers.{number_at};
ghost use Rattle.smb_field.specs.Rows.{seen_as};
ghost use Rattle.smb_field.specs.Body.{Strays, Reads, WritesBody};
ghost use Rattle.smb_body_a.specs.Negotiate.{negotiate_request, IsNegotiateRequest, negotiate_reply, IsNegotiateReply, negotiate_request_of, seen_negotiate_request, negotiate_reply_of, seen_negotiate_reply};
ghost use Rattle.smb_body_a.specs.declared.negotiate.NegotiateRequest.{NegotiateRequest};
ghost use Rattle.smb_body_a.specs.declared.negotiate.NegotiateReply.{NegotiateReply};

use smb_base::NoMemory;
use smb_field::{BodyFault, Field, lent, put_varied};
use smb_le::{get_u16, get_u32, get_u64};

/// The NEGOTIATE request (MS-SMB2 2.2.3).
#[derive(Drop)]
pub struct NegotiateRequest<'a> {
    /// The client's own id.
    pub client_guid: [u8; 16],
    /// The dialects that the client offers, 2 bytes each.
    pub dialects: &'a [u8],
}

/// The NEGOTIATE reply (MS-SMB2 2.2.4).
#[derive(Drop)]
pub struct NegotiateReply<'a> {
    /// Whether the server signs (1), and whether it wants each message signed (2).
    pub security_mode: u16,
    /// The dialect that the server chose.
    pub dialect: u16,
    /// The server's own id.
    pub server_guid: [u8; 16],
    /// What the server can do.
    pub capabilities: u32,
    /// The greatest payload of a query or a change of information, in bytes.
    pub max_transact: u32,
    /// The greatest read, in bytes.
    pub max_read: u32,
    /// The greatest write, in bytes.
    pub max_write: u32,
    /// The server's time, in units of 100 nanoseconds since 1601.
    pub system_time: u64,
    /// The time of the server's start, in the same units.
    pub start_time: u64,
    /// The security token.
    pub buffer: &'a [u8],
}

/// Reads the body of a NEGOTIATE request from a whole message, header and body. The dialects are lent from the message. What
/// stands in the fields that have one written value is not looked at.
#[tactic(auto, unfolding(crate::specs::Negotiate::negotiate_request_of))]
pub fn read_negotiate_request(part: &[u8]) -> Result<NegotiateRequest<'_>, BodyFault>
    ensures exact { seen_as seen_negotiate_request result ≡ negotiate_request_of part.now }
    ensures reads { Reads 36 (λ (x : NegotiateRequest). IsNegotiateRequest x part.now) ⊥
        (Strays 100 100 (2 * number_at 2 66 part.now) part.now)
        part.now result }
    ensures only { (x : NegotiateRequest) → IsNegotiateRequest x part.now → IsOk result }
{
    if part.len() < 100 {
        return Err(BodyFault::Short);
    }
    if get_u16(part, 64) != 36 {
        return Err(BodyFault::Size);
    }
    let Some(dialects) = lent(part, 100, 100, 2 * u32::from(get_u16(part, 66))) else {
        return Err(BodyFault::Offset);
    };
    let mut client_guid = [0u8; 16];
    client_guid.copy_from_slice(&part[76..92]);
    Ok(NegotiateRequest {
        client_guid,
        dialects,
    })
}

/// Appends the body of a NEGOTIATE request. For want of memory nothing is changed.
pub fn write_negotiate_request(out: &mut Vec<u8>, x: &NegotiateRequest<'_>) -> Result<(), NoMemory>
    requires whole { length x.now.dialects.now % 2 ≡ 0 }
    requires few { length x.now.dialects.now / 2 < 2 ^ 16 }
    ensures { WritesBody 36 (negotiate_request x.now) x.now.dialects.now out.old.items out.new.items result }
{
    put_varied(
        out,
        36,
        &[
            Field::U16((x.dialects.len() / 2) as u16),
            Field::Any16(1),
            Field::Any16(0),
            Field::Any32(0),
            Field::Block(x.client_guid),
            Field::Any64(0),
            Field::Follows,
        ],
        x.dialects,
    )
}

/// Reads the body of a NEGOTIATE reply from a whole message, header and body. The buffer is lent from the message. What stands in
/// the reserved fields is not looked at.
#[tactic(auto, unfolding(crate::specs::Negotiate::negotiate_reply_of))]
pub fn read_negotiate_reply(part: &[u8]) -> Result<NegotiateReply<'_>, BodyFault>
    ensures exact { seen_as seen_negotiate_reply result ≡ negotiate_reply_of part.now }
    ensures reads { Reads 65 (λ (x : NegotiateReply). IsNegotiateReply x part.now) ⊥
        (Strays 128 (number_at 2 120 part.now) (number_at 2 122 part.now) part.now)
        part.now result }
    ensures only { (x : NegotiateReply) → IsNegotiateReply x part.now → IsOk result }
{
    if part.len() < 128 {
        return Err(BodyFault::Short);
    }
    if get_u16(part, 64) != 65 {
        return Err(BodyFault::Size);
    }
    let Some(buffer) = lent(
        part,
        128,
        u32::from(get_u16(part, 120)),
        u32::from(get_u16(part, 122)),
    ) else {
        return Err(BodyFault::Offset);
    };
    let mut server_guid = [0u8; 16];
    server_guid.copy_from_slice(&part[72..88]);
    Ok(NegotiateReply {
        security_mode: get_u16(part, 66),
        dialect: get_u16(part, 68),
        server_guid,
        capabilities: get_u32(part, 88),
        max_transact: get_u32(part, 92),
        max_read: get_u32(part, 96),
        max_write: get_u32(part, 100),
        system_time: get_u64(part, 104),
        start_time: get_u64(part, 112),
        buffer,
    })
}

/// Appends the body of a NEGOTIATE reply. For want of memory nothing is changed.
pub fn write_negotiate_reply(out: &mut Vec<u8>, x: &NegotiateReply<'_>) -> Result<(), NoMemory>
    requires { length x.now.buffer.now < 2 ^ 16 }
    ensures { WritesBody 65 (negotiate_reply x.now) x.now.buffer.now out.old.items out.new.items result }
{
    put_varied(
        out,
        65,
        &[
            Field::U16(x.security_mode),
            Field::U16(x.dialect),
            Field::Any16(0),
            Field::Block(x.server_guid),
            Field::U32(x.capabilities),
            Field::U32(x.max_transact),
            Field::U32(x.max_read),
            Field::U32(x.max_write),
            Field::U64(x.system_time),
            Field::U64(x.start_time),
            Field::Offset16,
            Field::U16(x.buffer.len() as u16),
            Field::Any32(0),
        ],
        x.buffer,
    )
}
