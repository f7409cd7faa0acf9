//! READ (MS-SMB2 2.2.19 and 2.2.20).

ghost use Rattle.std.specs.Prelude.{◌≡◌, [], ◌^◌, ◌<◌, IsOk, length, slice_index};
ghost use Rattle.smb_le.specs.Numbers.{number_at};
ghost use Rattle.smb_field.specs.Rows.{seen_as};
ghost use Rattle.smb_field.specs.Body.{Strays, Reads, WritesBody};
ghost use Rattle.smb_body_b.specs.Read.{read_request, IsReadRequest, read_reply, IsReadReply, read_request_of, read_reply_of, seen_read_reply};
ghost use Rattle.smb_body_b.specs.declared.read.ReadRequest.{ReadRequest};
ghost use Rattle.smb_body_b.specs.declared.read.ReadReply.{ReadReply};

use smb_base::{Fid, NoMemory};
use smb_field::{BodyFault, Field, lent, put_varied};
use smb_le::{get_u16, get_u32, get_u64};

/// The READ request (MS-SMB2 2.2.19).
#[derive(Drop)]
pub struct ReadRequest {
    /// How many bytes are asked for.
    pub length: u32,
    /// Where they begin.
    pub offset: u64,
    /// The open.
    pub file_id: Fid,
}

/// Reads the body of a READ request from a whole message, header and body. What stands in a reserved field or in one with a
/// single written value is not looked at.
#[tactic(auto, unfolding(crate::specs::Read::read_request_of))]
pub fn read_read_request(part: &[u8]) -> Result<ReadRequest, BodyFault>
    ensures exact { result ≡ read_request_of part.now }
    ensures reads { Reads 49 (λ (x : ReadRequest). IsReadRequest x part.now) ⊥ ⊥ part.now result }
    ensures only { (x : ReadRequest) → IsReadRequest x part.now → IsOk result }
{
    if part.len() < 112 {
        return Err(BodyFault::Short);
    }
    if get_u16(part, 64) != 49 {
        return Err(BodyFault::Size);
    }
    Ok(ReadRequest {
        length: get_u32(part, 68),
        offset: get_u64(part, 72),
        file_id: Fid {
            persistent: get_u64(part, 80),
            volatile: get_u64(part, 88),
        },
    })
}

/// Appends the body of a READ request. For want of memory nothing is changed.
pub fn write_read_request(out: &mut Vec<u8>, x: &ReadRequest) -> Result<(), NoMemory>
    ensures { WritesBody 49 (read_request x.now) [] out.old.items out.new.items result }
{
    put_varied(
        out,
        49,
        &[
            Field::Any8(80),
            Field::Any8(0),
            Field::U32(x.length),
            Field::U64(x.offset),
            Field::U64(x.file_id.persistent),
            Field::U64(x.file_id.volatile),
            Field::Any32(0),
            Field::Any32(0),
            Field::Any32(0),
            Field::Any16(0),
            Field::Any16(0),
        ],
        &[],
    )
}

/// The READ reply (MS-SMB2 2.2.20).
#[derive(Drop)]
pub struct ReadReply<'a> {
    /// How many bytes are still to come on another channel.
    pub data_remaining: u32,
    /// The bytes of the file.
    pub bytes: &'a [u8],
}

/// Reads the body of a READ reply from a whole message, header and body. The bytes are lent from the message. What stands in a
/// reserved field or in one with a single written value is not looked at.
#[tactic(auto, unfolding(crate::specs::Read::read_reply_of))]
pub fn read_read_reply(part: &[u8]) -> Result<ReadReply<'_>, BodyFault>
    ensures exact { seen_as seen_read_reply result ≡ read_reply_of part.now }
    ensures reads { Reads 17 (λ (x : ReadReply). IsReadReply x part.now) ⊥
        (Strays 80 (slice_index part.now 66) (number_at 4 68 part.now) part.now)
        part.now result }
    ensures only { (x : ReadReply) → IsReadReply x part.now → IsOk result }
{
    if part.len() < 80 {
        return Err(BodyFault::Short);
    }
    if get_u16(part, 64) != 17 {
        return Err(BodyFault::Size);
    }
    let Some(bytes) = lent(part, 80, u32::from(part[66]), get_u32(part, 68)) else {
        return Err(BodyFault::Offset);
    };
    Ok(ReadReply {
        data_remaining: get_u32(part, 72),
        bytes,
    })
}

/// Appends the body of a READ reply. For want of memory nothing is changed.
pub fn write_read_reply(out: &mut Vec<u8>, x: &ReadReply<'_>) -> Result<(), NoMemory>
    requires { length x.now.bytes.now < 2 ^ 32 }
    ensures { WritesBody 17 (read_reply x.now) x.now.bytes.now out.old.items out.new.items result }
{
    put_varied(
        out,
        17,
        &[
            Field::Place8,
            Field::Any8(0),
            Field::U32(x.bytes.len() as u32),
            Field::U32(x.data_remaining),
            Field::Any32(0),
        ],
        x.bytes,
    )
}
