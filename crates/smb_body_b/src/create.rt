//! CREATE (MS-SMB2 2.2.13 and 2.2.14).

ghost use Rattle.std.specs.Prelude.{◌≡◌, ◌≢◌, ◌%◌, ◌^◌, ◌<◌, ◌≤◌, ◌⊎◌, IsOk, length};
ghost use Rattle.smb_le.specs.Numbers.{number_at};
ghost use Rattle.smb_field.specs.Rows.{seen_as};
ghost use Rattle.smb_field.specs.Body.{Strays, Reads, WritesBody};
ghost use Rattle.smb_field.specs.TwoParts.{WritesBodyOfTwo};
ghost use Rattle.smb_body_b.specs.Create.{create_request, IsCreateRequest, create_reply, IsCreateReply, create_request_of, seen_create_request, create_reply_of, seen_create_reply};
ghost use Rattle.smb_body_b.specs.declared.create.CreateRequest.{CreateRequest};
ghost use Rattle.smb_body_b.specs.declared.create.CreateReply.{CreateReply};

use smb_base::{Fid, NoMemory};
use smb_field::{BodyFault, Field, lent, put_parts, put_varied};
use smb_le::{get_u16, get_u32, get_u64};

/// The CREATE request (MS-SMB2 2.2.13).
#[derive(Drop)]
pub struct CreateRequest<'a> {
    /// What is asked for: a lease (255), or nothing (0).
    pub oplock_level: u8,
    /// What the open may do.
    pub access: u32,
    /// The attributes of a file that is made.
    pub attributes: u32,
    /// What other opens may do meanwhile: read (1), write (2), delete (4).
    pub share: u32,
    /// What is done where the file is there, and where it is not: 0 to 5.
    pub disposition: u32,
    /// Options of the open.
    pub options: u32,
    /// The path, in UTF-16.
    pub name: &'a [u8],
    /// The create contexts, which `read_contexts` reads.
    pub contexts: &'a [u8],
}

/// The CREATE reply (MS-SMB2 2.2.14).
#[derive(Drop)]
pub struct CreateReply<'a> {
    /// What was granted: a lease (255), or nothing (0).
    pub oplock_level: u8,
    /// Whether the file is a reparse point (1).
    pub flags: u8,
    /// What was done: opened (1), created (2), overwritten (3).
    pub action: u32,
    /// The times of creation, last access, last write and change, in units of 100 nanoseconds since 1601.
    pub times: [u64; 4],
    /// How many bytes the file takes on the disk.
    pub allocation_size: u64,
    /// The size of the file, in bytes.
    pub end_of_file: u64,
    /// The attributes of the file.
    pub attributes: u32,
    /// The open.
    pub file_id: Fid,
    /// The create contexts, which `read_contexts` reads.
    pub contexts: &'a [u8],
}

/// Reads the body of a CREATE request from a whole message, header and body. The name and the contexts are lent from the message;
/// the message is one of SMB2 only where `read_contexts` reads these too. What stands in a reserved field or in one with a single
/// written value is not looked at.
#[tactic(auto, unfolding(crate::specs::Create::create_request_of))]
pub fn read_create_request(part: &[u8]) -> Result<CreateRequest<'_>, BodyFault>
    ensures exact { seen_as seen_create_request result ≡ create_request_of part.now }
    ensures reads { Reads 57 (λ (x : CreateRequest). IsCreateRequest x part.now)
        ((5 < number_at 4 100 part.now) ⊎ (number_at 2 110 part.now % 2 ≢ 0))
        (Strays 120 (number_at 2 108 part.now) (number_at 2 110 part.now) part.now
        ⊎ Strays 120 (number_at 4 112 part.now) (number_at 4 116 part.now) part.now)
        part.now result }
    ensures only { (x : CreateRequest) → IsCreateRequest x part.now → IsOk result }
{
    if part.len() < 120 {
        return Err(BodyFault::Short);
    }
    if get_u16(part, 64) != 57 {
        return Err(BodyFault::Size);
    }
    if get_u32(part, 100) > 5 || get_u16(part, 110) % 2 != 0 {
        return Err(BodyFault::Value);
    }
    let Some(name) = lent(
        part,
        120,
        u32::from(get_u16(part, 108)),
        u32::from(get_u16(part, 110)),
    ) else {
        return Err(BodyFault::Offset);
    };
    let Some(contexts) = lent(part, 120, get_u32(part, 112), get_u32(part, 116)) else {
        return Err(BodyFault::Offset);
    };
    Ok(CreateRequest {
        oplock_level: part[67],
        access: get_u32(part, 88),
        attributes: get_u32(part, 92),
        share: get_u32(part, 96),
        disposition: get_u32(part, 100),
        options: get_u32(part, 104),
        name,
        contexts,
    })
}

/// Appends the body of a CREATE request. For want of memory nothing is changed.
pub fn write_create_request(out: &mut Vec<u8>, x: &CreateRequest<'_>) -> Result<(), NoMemory>
    requires disposition { x.now.disposition ≤ 5 }
    requires even { length x.now.name.now % 2 ≡ 0 }
    requires short { length x.now.name.now < 2 ^ 16 }
    requires few { length x.now.contexts.now < 2 ^ 32 }
    ensures { WritesBodyOfTwo 57 (create_request x.now) x.now.name.now x.now.contexts.now out.old.items out.new.items result }
{
    put_parts(
        out,
        57,
        &[
            Field::Any8(0),
            Field::U8(x.oplock_level),
            Field::Any32(2),
            Field::Any64(0),
            Field::Any64(0),
            Field::U32(x.access),
            Field::U32(x.attributes),
            Field::U32(x.share),
            Field::U32(x.disposition),
            Field::U32(x.options),
            Field::Offset16,
            Field::U16(x.name.len() as u16),
            Field::Second32,
            Field::U32(x.contexts.len() as u32),
        ],
        x.name,
        x.contexts,
    )
}

/// Reads the body of a CREATE reply from a whole message, header and body. The contexts are lent from the message; the message is
/// one of SMB2 only where `read_contexts` reads these too. What stands in the reserved field is not looked at.
#[tactic(auto, unfolding(crate::specs::Create::create_reply_of))]
pub fn read_create_reply(part: &[u8]) -> Result<CreateReply<'_>, BodyFault>
    ensures exact { seen_as seen_create_reply result ≡ create_reply_of part.now }
    ensures reads { Reads 89 (λ (x : CreateReply). IsCreateReply x part.now) ⊥
        (Strays 152 (number_at 4 144 part.now) (number_at 4 148 part.now) part.now)
        part.now result }
    ensures only { (x : CreateReply) → IsCreateReply x part.now → IsOk result }
{
    if part.len() < 152 {
        return Err(BodyFault::Short);
    }
    if get_u16(part, 64) != 89 {
        return Err(BodyFault::Size);
    }
    let Some(contexts) = lent(part, 152, get_u32(part, 144), get_u32(part, 148)) else {
        return Err(BodyFault::Offset);
    };
    Ok(CreateReply {
        oplock_level: part[66],
        flags: part[67],
        action: get_u32(part, 68),
        times: [
            get_u64(part, 72),
            get_u64(part, 80),
            get_u64(part, 88),
            get_u64(part, 96),
        ],
        allocation_size: get_u64(part, 104),
        end_of_file: get_u64(part, 112),
        attributes: get_u32(part, 120),
        file_id: Fid {
            persistent: get_u64(part, 128),
            volatile: get_u64(part, 136),
        },
        contexts,
    })
}

/// Appends the body of a CREATE reply. For want of memory nothing is changed.
pub fn write_create_reply(out: &mut Vec<u8>, x: &CreateReply<'_>) -> Result<(), NoMemory>
    requires { length x.now.contexts.now < 2 ^ 32 }
    ensures { WritesBody 89 (create_reply x.now) x.now.contexts.now out.old.items out.new.items result }
{
    put_varied(
        out,
        89,
        &[
            Field::U8(x.oplock_level),
            Field::U8(x.flags),
            Field::U32(x.action),
            Field::U64(x.times[0]),
            Field::U64(x.times[1]),
            Field::U64(x.times[2]),
            Field::U64(x.times[3]),
            Field::U64(x.allocation_size),
            Field::U64(x.end_of_file),
            Field::U32(x.attributes),
            Field::Any32(0),
            Field::U64(x.file_id.persistent),
            Field::U64(x.file_id.volatile),
            Field::Offset32,
            Field::U32(x.contexts.len() as u32),
        ],
        x.contexts,
    )
}
