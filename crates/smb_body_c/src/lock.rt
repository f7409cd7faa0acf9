//! LOCK (MS-SMB2 2.2.26).

ghost use Rattle.std.specs.Prelude.{◌≡◌, ◌≢◌, [], IsOk};
ghost use Rattle.smb_le.specs.Numbers.{number_at};
ghost use Rattle.smb_field.specs.Body.{Reads, WritesBody};
ghost use Rattle.smb_body_c.specs.Lock.{lock_request, IsLockRequest, lock_request_of};
ghost use Rattle.smb_body_c.specs.declared.lock.LockRequest.{LockRequest};

use smb_base::{Fid, NoMemory};
use smb_field::{BodyFault, Field, put_varied};
use smb_le::{get_u16, get_u32, get_u64};

/// The LOCK request with one range (MS-SMB2 2.2.26).
#[derive(Drop)]
pub struct LockRequest {
    /// How many ranges follow: always 1.
    pub lock_count: u16,
    /// The open that locks or unlocks.
    pub file_id: Fid,
    /// Where the range begins.
    pub offset: u64,
    /// How many bytes it has.
    pub length: u64,
    /// Shared (1), exclusive (2), unlock (4), fail immediately (16).
    pub flags: u32,
}

/// Reads the body of a LOCK request from a whole message, header and body. What stands in a reserved field or in one with a
/// single written value is not looked at.
#[tactic(auto, unfolding(crate::specs::Lock::lock_request_of))]
pub fn read_lock_request(part: &[u8]) -> Result<LockRequest, BodyFault>
    ensures exact { result ≡ lock_request_of part.now }
    ensures reads { Reads 48 (λ (x : LockRequest). IsLockRequest x part.now)
        (number_at 2 66 part.now ≢ 1) ⊥
        part.now result }
    ensures only { (x : LockRequest) → IsLockRequest x part.now → IsOk result }
{
    if part.len() < 112 {
        return Err(BodyFault::Short);
    }
    if get_u16(part, 64) != 48 {
        return Err(BodyFault::Size);
    }
    if get_u16(part, 66) != 1 {
        return Err(BodyFault::Value);
    }
    Ok(LockRequest {
        lock_count: get_u16(part, 66),
        file_id: Fid {
            persistent: get_u64(part, 72),
            volatile: get_u64(part, 80),
        },
        offset: get_u64(part, 88),
        length: get_u64(part, 96),
        flags: get_u32(part, 104),
    })
}

/// Appends the body of a LOCK request. For want of memory nothing is changed.
pub fn write_lock_request(out: &mut Vec<u8>, x: &LockRequest) -> Result<(), NoMemory>
    requires { x.now.lock_count ≡ 1 }
    ensures { WritesBody 48 (lock_request x.now) [] out.old.items out.new.items result }
{
    put_varied(
        out,
        48,
        &[
            Field::U16(x.lock_count),
            Field::Any32(0),
            Field::U64(x.file_id.persistent),
            Field::U64(x.file_id.volatile),
            Field::U64(x.offset),
            Field::U64(x.length),
            Field::U32(x.flags),
            Field::Any32(0),
        ],
        &[],
    )
}
