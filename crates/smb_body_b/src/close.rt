//! CLOSE (MS-SMB2 2.2.15 and 2.2.16).

ghost use Rattle.std.specs.Prelude.{◌≡◌, [], IsOk};
ghost use Rattle.smb_le.specs.Numbers.{number_at};
ghost use Rattle.smb_field.specs.Body.{Reads, WritesBody};
ghost use Rattle.smb_body_b.specs.Close.{close_request, IsCloseRequest, close_reply, IsCloseReply, close_request_of, close_reply_of};
ghost use Rattle.smb_body_b.specs.declared.close.CloseRequest.{CloseRequest};
ghost use Rattle.smb_body_b.specs.declared.close.CloseReply.{CloseReply};

use smb_base::{Fid, NoMemory};
use smb_field::{BodyFault, Field, put_varied};
use smb_le::{get_u16, get_u32, get_u64};

/// The CLOSE request (MS-SMB2 2.2.15).
#[derive(Drop)]
pub struct CloseRequest {
    /// The open.
    pub file_id: Fid,
}

/// Reads the body of a CLOSE request from a whole message, header and body. What stands in a reserved field or in one with a
/// single written value is not looked at.
#[tactic(auto, unfolding(crate::specs::Close::close_request_of))]
pub fn read_close_request(part: &[u8]) -> Result<CloseRequest, BodyFault>
    ensures exact { result ≡ close_request_of part.now }
    ensures reads { Reads 24 (λ (x : CloseRequest). IsCloseRequest x part.now) ⊥ ⊥ part.now result }
    ensures only { (x : CloseRequest) → IsCloseRequest x part.now → IsOk result }
{
    if part.len() < 88 {
        return Err(BodyFault::Short);
    }
    if get_u16(part, 64) != 24 {
        return Err(BodyFault::Size);
    }
    Ok(CloseRequest {
        file_id: Fid {
            persistent: get_u64(part, 72),
            volatile: get_u64(part, 80),
        },
    })
}

/// Appends the body of a CLOSE request. For want of memory nothing is changed.
pub fn write_close_request(out: &mut Vec<u8>, x: &CloseRequest) -> Result<(), NoMemory>
    ensures { WritesBody 24 (close_request x.now) [] out.old.items out.new.items result }
{
    put_varied(
        out,
        24,
        &[
            Field::Any16(0),
            Field::Any32(0),
            Field::U64(x.file_id.persistent),
            Field::U64(x.file_id.volatile),
        ],
        &[],
    )
}

/// The CLOSE reply (MS-SMB2 2.2.16).
#[derive(Drop)]
pub struct CloseReply {
    /// Whether the attributes were asked for (1).
    pub flags: u16,
    /// The times of creation, last access, last write and change, in units of 100 nanoseconds since 1601.
    pub times: [u64; 4],
    /// How many bytes the file takes on the disk.
    pub allocation_size: u64,
    /// The size of the file, in bytes.
    pub end_of_file: u64,
    /// The attributes of the file.
    pub attributes: u32,
}

/// Reads the body of a CLOSE reply from a whole message, header and body. What stands in a reserved field or in one with a single
/// written value is not looked at.
#[tactic(auto, unfolding(crate::specs::Close::close_reply_of))]
pub fn read_close_reply(part: &[u8]) -> Result<CloseReply, BodyFault>
    ensures exact { result ≡ close_reply_of part.now }
    ensures reads { Reads 60 (λ (x : CloseReply). IsCloseReply x part.now) ⊥ ⊥ part.now result }
    ensures only { (x : CloseReply) → IsCloseReply x part.now → IsOk result }
{
    if part.len() < 124 {
        return Err(BodyFault::Short);
    }
    if get_u16(part, 64) != 60 {
        return Err(BodyFault::Size);
    }
    Ok(CloseReply {
        flags: get_u16(part, 66),
        times: [
            get_u64(part, 72),
            get_u64(part, 80),
            get_u64(part, 88),
            get_u64(part, 96),
        ],
        allocation_size: get_u64(part, 104),
        end_of_file: get_u64(part, 112),
        attributes: get_u32(part, 120),
    })
}

/// Appends the body of a CLOSE reply. For want of memory nothing is changed.
pub fn write_close_reply(out: &mut Vec<u8>, x: &CloseReply) -> Result<(), NoMemory>
    ensures { WritesBody 60 (close_reply x.now) [] out.old.items out.new.items result }
{
    put_varied(
        out,
        60,
        &[
            Field::U16(x.flags),
            Field::Any32(0),
            Field::U64(x.times[0]),
            Field::U64(x.times[1]),
            Field::U64(x.times[2]),
            Field::U64(x.times[3]),
            Field::U64(x.allocation_size),
            Field::U64(x.end_of_file),
            Field::U32(x.attributes),
        ],
        &[],
    )
}
