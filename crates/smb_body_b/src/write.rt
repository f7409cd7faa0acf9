//! WRITE (MS-SMB2 2.2.21 and 2.2.22).

ghost use Rattle.std.specs.Prelude.{◌≡◌, [], ◌^◌, ◌<◌, IsOk, length};
ghost use Rattle.smb_le.specs.Numbers.{number_at};
ghost use Rattle.smb_field.specs.Rows.{seen_as};
ghost use Rattle.smb_field.specs.Body.{Strays, Reads, WritesBody};
ghost use Rattle.smb_body_b.specs.Write.{write_request, IsWriteRequest, write_reply, IsWriteReply, write_request_of, seen_write_request, write_reply_of};
ghost use Rattle.smb_body_b.specs.declared.write.WriteRequest.{WriteRequest};
ghost use Rattle.smb_body_b.specs.declared.write.WriteReply.{WriteReply};

use smb_base::{Fid, NoMemory};
use smb_field::{BodyFault, Field, lent, put_varied};
use smb_le::{get_u16, get_u32, get_u64};

/// The WRITE request (MS-SMB2 2.2.21).
#[derive(Drop)]
pub struct WriteRequest<'a> {
    /// Where in the file they go.
    pub offset: u64,
    /// The open.
    pub file_id: Fid,
    /// The bytes to write.
    pub bytes: &'a [u8],
}

/// Reads the body of a WRITE request from a whole message, header and body. The bytes are lent from the message. What stands in a
/// reserved field or in one with a single written value is not looked at.
#[tactic(auto, unfolding(crate::specs::Write::write_request_of))]
pub fn read_write_request(part: &[u8]) -> Result<WriteRequest<'_>, BodyFault>
    ensures exact { seen_as seen_write_request result ≡ write_request_of part.now }
    ensures reads { Reads 49 (λ (x : WriteRequest). IsWriteRequest x part.now) ⊥
        (Strays 112 (number_at 2 66 part.now) (number_at 4 68 part.now) part.now)
        part.now result }
    ensures only { (x : WriteRequest) → IsWriteRequest x part.now → IsOk result }
{
    if part.len() < 112 {
        return Err(BodyFault::Short);
    }
    if get_u16(part, 64) != 49 {
        return Err(BodyFault::Size);
    }
    let Some(bytes) = lent(part, 112, u32::from(get_u16(part, 66)), get_u32(part, 68)) else {
        return Err(BodyFault::Offset);
    };
    Ok(WriteRequest {
        offset: get_u64(part, 72),
        file_id: Fid {
            persistent: get_u64(part, 80),
            volatile: get_u64(part, 88),
        },
        bytes,
    })
}

/// Appends the body of a WRITE request. For want of memory nothing is changed.
pub fn write_write_request(out: &mut Vec<u8>, x: &WriteRequest<'_>) -> Result<(), NoMemory>
    requires { length x.now.bytes.now < 2 ^ 32 }
    ensures { WritesBody 49 (write_request x.now) x.now.bytes.now out.old.items out.new.items result }
{
    put_varied(
        out,
        49,
        &[
            Field::Offset16,
            Field::U32(x.bytes.len() as u32),
            Field::U64(x.offset),
            Field::U64(x.file_id.persistent),
            Field::U64(x.file_id.volatile),
            Field::Any32(0),
            Field::Any32(0),
            Field::Any16(0),
            Field::Any16(0),
            Field::Any32(0),
        ],
        x.bytes,
    )
}

/// The WRITE reply (MS-SMB2 2.2.22). It is written with 17 bytes and read with 16.
#[derive(Drop)]
pub struct WriteReply {
    /// How many bytes were written.
    pub count: u32,
    /// How many bytes are still to come on another channel.
    pub remaining: u32,
    /// Where information on the channel stands.
    pub info_offset: u16,
    /// How many bytes that has.
    pub info_length: u16,
}

/// Reads the body of a WRITE reply from a whole message, header and body. What stands in a reserved field or in one with a single
/// written value is not looked at.
#[tactic(auto, unfolding(crate::specs::Write::write_reply_of))]
pub fn read_write_reply(part: &[u8]) -> Result<WriteReply, BodyFault>
    ensures exact { result ≡ write_reply_of part.now }
    ensures reads { Reads 17 (λ (x : WriteReply). IsWriteReply x part.now) ⊥ ⊥ part.now result }
    ensures only { (x : WriteReply) → IsWriteReply x part.now → IsOk result }
{
    if part.len() < 80 {
        return Err(BodyFault::Short);
    }
    if get_u16(part, 64) != 17 {
        return Err(BodyFault::Size);
    }
    Ok(WriteReply {
        count: get_u32(part, 68),
        remaining: get_u32(part, 72),
        info_offset: get_u16(part, 76),
        info_length: get_u16(part, 78),
    })
}

/// Appends the body of a WRITE reply. For want of memory nothing is changed.
pub fn write_write_reply(out: &mut Vec<u8>, x: &WriteReply) -> Result<(), NoMemory>
    ensures { WritesBody 17 (write_reply x.now) [] out.old.items out.new.items result }
{
    put_varied(
        out,
        17,
        &[
            Field::Any16(0),
            Field::U32(x.count),
            Field::U32(x.remaining),
            Field::U16(x.info_offset),
            Field::U16(x.info_length),
        ],
        &[],
    )
}
