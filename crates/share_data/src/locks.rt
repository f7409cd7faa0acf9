//! Lock and Unlock.

ghost use Rattle.std.specs.Prelude.{◌≡◌, IfOk, OnErr, option_map};
ghost use Rattle.share_state.specs.Locking.{refusal_of_lock, lock_of, refusal_of_unlock, unlock_of};

use crate::ranges::is_taken_range;
use share_state::{Lock, Open, Rep, Share, Who, has, has_lock, of_status, open_of};
use smb_base::{Fid, NoMemory, Status};

const READ_OR_WRITE: u32 = 3;

// Why a Lock is refused.
fn refusal_of_lock(
    s: &Share,
    one: &Open,
    offset: u64,
    length: u64,
    exclusive: bool,
) -> Option<Status>
    ensures { option_map (λ f. f.0) result ≡ refusal_of_lock s.now one.now offset length exclusive }
{
    if !has(one.access, READ_OR_WRITE) {
        return Some(Status::ACCESS_DENIED);
    }
    if length == 0 {
        return Some(Status::INVALID_PARAMETER);
    }
    if is_taken_range(s, one, offset, length, exclusive) {
        return Some(Status::LOCK_NOT_GRANTED);
    }
    None
}

/// A Lock (MS-FSA 2.1.5.8) of a range for the open. Refused with FILE_CLOSED where the file id names no open of the client,
/// ACCESS_DENIED without READ_DATA and WRITE_DATA, INVALID_PARAMETER for a range without a byte, LOCK_NOT_GRANTED where some of it is
/// locked and one of the two is exclusive; the share is then as it was. It fails only for want of memory, and then too the share is as
/// it was.
pub fn lock(
    s: &mut Share,
    who: Who,
    fid: Fid,
    offset: u64,
    length: u64,
    exclusive: bool,
) -> Result<Rep, NoMemory>
    ensures ok { IfOk result (λ rep. lock_of s.old who fid offset length exclusive ≡ (rep, s.new)) }
    ensures err { OnErr result (s.new ≡ s.old) }
{
    let Some(open) = open_of(s.opens.as_slice(), who, fid) else {
        return Ok(of_status(Status::FILE_CLOSED));
    };
    if let Some(status) = refusal_of_lock(s, open, offset, length, exclusive) {
        return Ok(of_status(status));
    }
    let holder = open.number;
    s.locks.push(Lock {
        holder,
        offset,
        length,
        exclusive,
    })?;
    Ok(of_status(Status::SUCCESS))
}

// Why an Unlock is refused.
fn refusal_of_unlock(s: &Share, one: &Open, offset: u64, length: u64) -> Option<Status>
    ensures { option_map (λ f. f.0) result ≡ refusal_of_unlock s.now one.now offset length }
{
    if has_lock(s.locks.as_slice(), one.number, offset, length) {
        return None;
    }
    Some(Status::RANGE_NOT_LOCKED)
}

/// An Unlock (MS-FSA 2.1.5.9): takes the first lock off that the open holds on exactly this range. Refused with FILE_CLOSED where the
/// file id names no open of the client, RANGE_NOT_LOCKED where it holds none such; the share is then as it was.
pub fn unlock(s: &mut Share, who: Who, fid: Fid, offset: u64, length: u64) -> Rep
    ensures { unlock_of s.old who fid offset length ≡ (result, s.new) }
{
    let Some(open) = open_of(s.opens.as_slice(), who, fid) else {
        return of_status(Status::FILE_CLOSED);
    };
    if let Some(status) = refusal_of_unlock(s, open, offset, length) {
        return of_status(status);
    }
    let holder = open.number;
    s.locks.unlock(holder, offset, length);
    of_status(Status::SUCCESS)
}
