//! QUERY_DIRECTORY, and the reply that it shares with QUERY_INFO (MS-SMB2 2.2.33, 2.2.34 and 2.2.38).

ghost use Rattle.std.specs.Prelude.{◌≡◌, ◌^◌, ◌<◌, IsOk, length};
ghost use Rattle.smb_le.specs.Numbers.{number_at};
ghost use Rattle.smb_field.specs.Rows.{seen_as};
ghost use Rattle.smb_field.specs.Body.{Strays, Reads, WritesBody};
ghost use Rattle.smb_body_c.specs.Directory.{query_directory_request, IsQueryDirectoryRequest, buffer_reply, IsBufferReply, query_directory_request_of, seen_query_directory, buffer_reply_of, seen_buffer};
ghost use Rattle.smb_body_c.specs.declared.directory.QueryDirectoryRequest.{QueryDirectoryRequest};
ghost use Rattle.smb_body_c.specs.declared.directory.BufferReply.{BufferReply};

use smb_base::{Fid, NoMemory};
use smb_field::{BodyFault, Field, lent, put_varied};
use smb_le::{get_u16, get_u32, get_u64};

/// The QUERY_DIRECTORY request (MS-SMB2 2.2.33).
#[derive(Drop)]
pub struct QueryDirectoryRequest<'a> {
    /// The class of entries that is asked for.
    pub class: u8,
    /// Start again (1), one entry alone (2).
    pub flags: u8,
    /// The open of the directory.
    pub file_id: Fid,
    /// The greatest answer, in bytes.
    pub output_length: u32,
    /// The pattern of names, in UTF-16.
    pub pattern: &'a [u8],
}

/// Reads the body of a QUERY_DIRECTORY request from a whole message, header and body. The pattern is lent from the message. What
/// stands in a reserved field or in one with a single written value is not looked at.
#[tactic(auto, unfolding(crate::specs::Directory::query_directory_request_of))]
pub fn read_query_directory_request(part: &[u8]) -> Result<QueryDirectoryRequest<'_>, BodyFault>
    ensures exact { seen_as seen_query_directory result ≡ query_directory_request_of part.now }
    ensures reads { Reads 33 (λ (x : QueryDirectoryRequest). IsQueryDirectoryRequest x part.now) ⊥
        (Strays 96 (number_at 2 88 part.now) (number_at 2 90 part.now) part.now)
        part.now result }
    ensures only { (x : QueryDirectoryRequest) → IsQueryDirectoryRequest x part.now → IsOk result }
{
    if part.len() < 96 {
        return Err(BodyFault::Short);
    }
    if get_u16(part, 64) != 33 {
        return Err(BodyFault::Size);
    }
    let Some(pattern) = lent(
        part,
        96,
        u32::from(get_u16(part, 88)),
        u32::from(get_u16(part, 90)),
    ) else {
        return Err(BodyFault::Offset);
    };
    Ok(QueryDirectoryRequest {
        class: part[66],
        flags: part[67],
        file_id: Fid {
            persistent: get_u64(part, 72),
            volatile: get_u64(part, 80),
        },
        output_length: get_u32(part, 92),
        pattern,
    })
}

/// Appends the body of a QUERY_DIRECTORY request. For want of memory nothing is changed.
pub fn write_query_directory_request(
    out: &mut Vec<u8>,
    x: &QueryDirectoryRequest<'_>,
) -> Result<(), NoMemory>
    requires { length x.now.pattern.now < 2 ^ 16 }
    ensures { WritesBody 33 (query_directory_request x.now) x.now.pattern.now out.old.items out.new.items result }
{
    put_varied(
        out,
        33,
        &[
            Field::U8(x.class),
            Field::U8(x.flags),
            Field::Any32(0),
            Field::U64(x.file_id.persistent),
            Field::U64(x.file_id.volatile),
            Field::Offset16,
            Field::U16(x.pattern.len() as u16),
            Field::U32(x.output_length),
        ],
        x.pattern,
    )
}

/// The reply that lends a buffer, to QUERY_DIRECTORY and to QUERY_INFO (MS-SMB2 2.2.34 and 2.2.38).
#[derive(Drop)]
pub struct BufferReply<'a> {
    /// The entries, or the information.
    pub buffer: &'a [u8],
}

/// Reads the body of a reply to QUERY_DIRECTORY or QUERY_INFO from a whole message, header and body. The buffer is lent from the
/// message.
#[tactic(auto, unfolding(crate::specs::Directory::buffer_reply_of))]
pub fn read_buffer_reply(part: &[u8]) -> Result<BufferReply<'_>, BodyFault>
    ensures exact { seen_as seen_buffer result ≡ buffer_reply_of part.now }
    ensures reads { Reads 9 (λ (x : BufferReply). IsBufferReply x part.now) ⊥
        (Strays 72 (number_at 2 66 part.now) (number_at 4 68 part.now) part.now)
        part.now result }
    ensures only { (x : BufferReply) → IsBufferReply x part.now → IsOk result }
{
    if part.len() < 72 {
        return Err(BodyFault::Short);
    }
    if get_u16(part, 64) != 9 {
        return Err(BodyFault::Size);
    }
    let Some(buffer) = lent(part, 72, u32::from(get_u16(part, 66)), get_u32(part, 68)) else {
        return Err(BodyFault::Offset);
    };
    Ok(BufferReply { buffer })
}

/// Appends the body of a reply to QUERY_DIRECTORY or QUERY_INFO. For want of memory nothing is changed.
pub fn write_buffer_reply(out: &mut Vec<u8>, x: &BufferReply<'_>) -> Result<(), NoMemory>
    requires { length x.now.buffer.now < 2 ^ 32 }
    ensures { WritesBody 9 (buffer_reply x.now) x.now.buffer.now out.old.items out.new.items result }
{
    put_varied(
        out,
        9,
        &[Field::Offset16, Field::U32(x.buffer.len() as u32)],
        x.buffer,
    )
}
