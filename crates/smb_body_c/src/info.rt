//! QUERY_INFO and SET_INFO (MS-SMB2 2.2.37, 2.2.39 and 2.2.40).

ghost use Rattle.std.specs.Prelude.{◌≡◌, ◌≢◌, [], ◌^◌, ◌<◌, IsOk, length, slice_index};
ghost use Rattle.smb_le.specs.Numbers.{number_at};
ghost use Rattle.smb_field.specs.Rows.{seen_as};
ghost use Rattle.smb_field.specs.Body.{Strays, Reads, WritesBody};
ghost use Rattle.smb_body_c.specs.Info.{IsQueried, query_info_request, IsQueryInfoRequest, set_info_request, IsSetInfoRequest, set_info_reply, IsSetInfoReply, query_info_request_of, set_info_request_of, seen_set_info, set_info_reply_of};
ghost use Rattle.smb_body_c.specs.declared.info.QueryInfoRequest.{QueryInfoRequest};
ghost use Rattle.smb_body_c.specs.declared.info.SetInfoRequest.{SetInfoRequest};
ghost use Rattle.smb_body_c.specs.declared.info.SetInfoReply.{SetInfoReply};

use smb_base::{Fid, NoMemory};
use smb_field::{BodyFault, Field, lent, put_varied};
use smb_le::{get_u16, get_u32, get_u64};

/// The QUERY_INFO request (MS-SMB2 2.2.37).
#[derive(Drop)]
pub struct QueryInfoRequest {
    /// Of what: a file (1), or the file system (2).
    pub info_type: u8,
    /// The class of information that is asked for.
    pub class: u8,
    /// The greatest answer, in bytes.
    pub output_length: u32,
    /// The open.
    pub file_id: Fid,
}

/// Reads the body of a QUERY_INFO request from a whole message, header and body. What stands in a reserved field or in one with a
/// single written value is not looked at.
#[tactic(auto, unfolding(crate::specs::Info::query_info_request_of))]
pub fn read_query_info_request(part: &[u8]) -> Result<QueryInfoRequest, BodyFault>
    ensures exact { result ≡ query_info_request_of part.now }
    ensures reads { Reads 41 (λ (x : QueryInfoRequest). IsQueryInfoRequest x part.now)
        (¬ IsQueried (slice_index part.now 66)) ⊥
        part.now result }
    ensures only { (x : QueryInfoRequest) → IsQueryInfoRequest x part.now → IsOk result }
{
    if part.len() < 104 {
        return Err(BodyFault::Short);
    }
    if get_u16(part, 64) != 41 {
        return Err(BodyFault::Size);
    }
    if part[66] != 1 && part[66] != 2 {
        return Err(BodyFault::Value);
    }
    Ok(QueryInfoRequest {
        info_type: part[66],
        class: part[67],
        output_length: get_u32(part, 68),
        file_id: Fid {
            persistent: get_u64(part, 88),
            volatile: get_u64(part, 96),
        },
    })
}

/// Appends the body of a QUERY_INFO request. For want of memory nothing is changed.
pub fn write_query_info_request(out: &mut Vec<u8>, x: &QueryInfoRequest) -> Result<(), NoMemory>
    requires { IsQueried x.now.info_type }
    ensures { WritesBody 41 (query_info_request x.now) [] out.old.items out.new.items result }
{
    put_varied(
        out,
        41,
        &[
            Field::U8(x.info_type),
            Field::U8(x.class),
            Field::U32(x.output_length),
            Field::Any16(0),
            Field::Any16(0),
            Field::Any32(0),
            Field::Any32(0),
            Field::Any32(0),
            Field::U64(x.file_id.persistent),
            Field::U64(x.file_id.volatile),
        ],
        &[],
    )
}

/// The SET_INFO request (MS-SMB2 2.2.39).
#[derive(Drop)]
pub struct SetInfoRequest<'a> {
    /// Of what: always a file (1).
    pub info_type: u8,
    /// The class of information that is set.
    pub class: u8,
    /// The open.
    pub file_id: Fid,
    /// The information.
    pub buffer: &'a [u8],
}

/// Reads the body of a SET_INFO request from a whole message, header and body. The buffer is lent from the message. What stands
/// in a reserved field or in one with a single written value is not looked at.
#[tactic(auto, unfolding(crate::specs::Info::set_info_request_of))]
pub fn read_set_info_request(part: &[u8]) -> Result<SetInfoRequest<'_>, BodyFault>
    ensures exact { seen_as seen_set_info result ≡ set_info_request_of part.now }
    ensures reads { Reads 33 (λ (x : SetInfoRequest). IsSetInfoRequest x part.now)
        (slice_index part.now 66 ≢ 1)
        (Strays 96 (number_at 2 72 part.now) (number_at 4 68 part.now) part.now)
        part.now result }
    ensures only { (x : SetInfoRequest) → IsSetInfoRequest x part.now → IsOk result }
{
    if part.len() < 96 {
        return Err(BodyFault::Short);
    }
    if get_u16(part, 64) != 33 {
        return Err(BodyFault::Size);
    }
    if part[66] != 1 {
        return Err(BodyFault::Value);
    }
    let Some(buffer) = lent(part, 96, u32::from(get_u16(part, 72)), get_u32(part, 68)) else {
        return Err(BodyFault::Offset);
    };
    Ok(SetInfoRequest {
        info_type: part[66],
        class: part[67],
        file_id: Fid {
            persistent: get_u64(part, 80),
            volatile: get_u64(part, 88),
        },
        buffer,
    })
}

/// Appends the body of a SET_INFO request. For want of memory nothing is changed.
pub fn write_set_info_request(out: &mut Vec<u8>, x: &SetInfoRequest<'_>) -> Result<(), NoMemory>
    requires file { x.now.info_type ≡ 1 }
    requires short { length x.now.buffer.now < 2 ^ 32 }
    ensures { WritesBody 33 (set_info_request x.now) x.now.buffer.now out.old.items out.new.items result }
{
    put_varied(
        out,
        33,
        &[
            Field::U8(x.info_type),
            Field::U8(x.class),
            Field::U32(x.buffer.len() as u32),
            Field::Offset16,
            Field::Any16(0),
            Field::Any32(0),
            Field::U64(x.file_id.persistent),
            Field::U64(x.file_id.volatile),
        ],
        x.buffer,
    )
}

/// The SET_INFO reply, which has no field (MS-SMB2 2.2.40).
#[derive(Drop)]
pub struct SetInfoReply;

/// Reads the body of a SET_INFO reply from a whole message, header and body.
#[tactic(auto, unfolding(crate::specs::Info::set_info_reply_of))]
pub fn read_set_info_reply(part: &[u8]) -> Result<SetInfoReply, BodyFault>
    ensures exact { result ≡ set_info_reply_of part.now }
    ensures reads { Reads 2 (λ (x : SetInfoReply). IsSetInfoReply x part.now) ⊥ ⊥ part.now result }
    ensures only { (x : SetInfoReply) → IsSetInfoReply x part.now → IsOk result }
{
    if part.len() < 66 {
        return Err(BodyFault::Short);
    }
    if get_u16(part, 64) != 2 {
        return Err(BodyFault::Size);
    }
    Ok(SetInfoReply)
}

/// Appends the body of a SET_INFO reply. For want of memory nothing is changed.
pub fn write_set_info_reply(out: &mut Vec<u8>, x: &SetInfoReply) -> Result<(), NoMemory>
    ensures { WritesBody 2 (set_info_reply x.now) [] out.old.items out.new.items result }
{
    let _ = x;
    put_varied(out, 2, &[], &[])
}
