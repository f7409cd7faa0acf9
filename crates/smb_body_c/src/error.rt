//! The reply of a request that the server refused (MS-SMB2 2.2.2).

ghost use Rattle.std.specs.Prelude.{◌≡◌, ◌^◌, ◌<◌, IsOk, length};
ghost use Rattle.smb_le.specs.Numbers.{number_at};
ghost use Rattle.smb_field.specs.Rows.{seen_as};
ghost use Rattle.smb_field.specs.Body.{Strays, Reads, WritesBody};
ghost use Rattle.smb_body_c.specs.Error.{error_reply, IsErrorReply, error_reply_of, seen_error};
ghost use Rattle.smb_body_c.specs.declared.error.ErrorReply.{ErrorReply};

use smb_base::NoMemory;
use smb_field::{BodyFault, Field, lent, put_varied};
use smb_le::{get_u16, get_u32};

/// The reply of a request that the server refused (MS-SMB2 2.2.2).
#[derive(Drop)]
pub struct ErrorReply<'a> {
    /// How many error contexts the bytes hold.
    pub context_count: u8,
    /// What the server tells of the refusal.
    pub bytes: &'a [u8],
}

/// Reads the body of an error reply from a whole message, header and body. The bytes are lent from the message. What stands in a
/// reserved field or in one with a single written value is not looked at.
#[tactic(auto, unfolding(crate::specs::Error::error_reply_of))]
pub fn read_error_reply(part: &[u8]) -> Result<ErrorReply<'_>, BodyFault>
    ensures exact { seen_as seen_error result ≡ error_reply_of part.now }
    ensures reads { Reads 9 (λ (x : ErrorReply). IsErrorReply x part.now) ⊥
        (Strays 72 72 (number_at 4 68 part.now) part.now)
        part.now result }
    ensures only { (x : ErrorReply) → IsErrorReply x part.now → IsOk result }
{
    if part.len() < 72 {
        return Err(BodyFault::Short);
    }
    if get_u16(part, 64) != 9 {
        return Err(BodyFault::Size);
    }
    let Some(bytes) = lent(part, 72, 72, get_u32(part, 68)) else {
        return Err(BodyFault::Offset);
    };
    Ok(ErrorReply {
        context_count: part[66],
        bytes,
    })
}

/// Appends the body of an error reply. For want of memory nothing is changed.
pub fn write_error_reply(out: &mut Vec<u8>, x: &ErrorReply<'_>) -> Result<(), NoMemory>
    requires { length x.now.bytes.now < 2 ^ 32 }
    ensures { WritesBody 9 (error_reply x.now) x.now.bytes.now out.old.items out.new.items result }
{
    put_varied(
        out,
        9,
        &[
            Field::U8(x.context_count),
            Field::Any8(0),
            Field::U32(x.bytes.len() as u32),
            Field::Follows,
        ],
        x.bytes,
    )
}
