//! FLUSH (MS-SMB2 2.2.17).

ghost use Rattle.std.specs.Prelude.{◌≡◌, [], IsOk};
ghost use Rattle.smb_le.specs.Numbers.{number_at};
ghost use Rattle.smb_field.specs.Body.{Reads, WritesBody};
ghost use Rattle.smb_body_b.specs.Flush.{flush_request, IsFlushRequest, flush_request_of};
ghost use Rattle.smb_body_b.specs.declared.flush.FlushRequest.{FlushRequest};

use smb_base::{Fid, NoMemory};
use smb_field::{BodyFault, Field, put_varied};
use smb_le::{get_u16, get_u64};

/// The FLUSH request (MS-SMB2 2.2.17).
#[derive(Drop)]
pub struct FlushRequest {
    /// The open.
    pub file_id: Fid,
}

/// Reads the body of a FLUSH request from a whole message, header and body. What stands in a reserved field or in one with a
/// single written value is not looked at.
#[tactic(auto, unfolding(crate::specs::Flush::flush_request_of))]
pub fn read_flush_request(part: &[u8]) -> Result<FlushRequest, BodyFault>
    ensures exact { result ≡ flush_request_of part.now }
    ensures reads { Reads 24 (λ (x : FlushRequest). IsFlushRequest x part.now) ⊥ ⊥ part.now result }
    ensures only { (x : FlushRequest) → IsFlushRequest x part.now → IsOk result }
{
    if part.len() < 88 {
        return Err(BodyFault::Short);
    }
    if get_u16(part, 64) != 24 {
        return Err(BodyFault::Size);
    }
    Ok(FlushRequest {
        file_id: Fid {
            persistent: get_u64(part, 72),
            volatile: get_u64(part, 80),
        },
    })
}

/// Appends the body of a FLUSH request. For want of memory nothing is changed.
pub fn write_flush_request(out: &mut Vec<u8>, x: &FlushRequest) -> Result<(), NoMemory>
    ensures { WritesBody 24 (flush_request x.now) [] out.old.items out.new.items result }
{
    put_varied(
        out,
        24,
        &[
            Field::Any16(0),
            Field::Any32(0),
            Field::U64(x.file_id.persistent),
            Field::U64(x.file_id.volatile),
        ],
        &[],
    )
}
