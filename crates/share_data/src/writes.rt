//! Write, Flush, and the end of a file.

ghost use Rattle.std.specs.Prelude.{◌≡◌, IfOk, OnErr, option_map, length};
ghost use Rattle.share_state.specs.Data.{growth, refusal_of_write, count_reply, changed, written, write_of, refusal_of_end, resized, end_of, refusal_of_flush, flush_of};

use crate::ranges::is_write_locked;
use crate::reads::is_data_open;
use crate::rooms::free_of;
use share_state::{Open, Rep, RepBody, Share, Who, has, of_status, open_of, size_of};
use smb_base::{Fid, NoMemory, Status};
use std::alloc::Global;

const WRITE_DATA: u32 = 2;

const WRITE_OR_APPEND: u32 = 6;

// How many bytes a file of this size gets more by a write of so many from an offset on.
fn growth(size: u64, offset: u64, count: u32) -> u128
    ensures { result ≡ growth size offset count }
{
    if count == 0 {
        return 0;
    }
    (u128::from(offset) + u128::from(count)).saturating_sub(u128::from(size))
}

// Why a Write of so many bytes is refused.
fn refusal_of_write(s: &Share, one: &Open, offset: u64, count: u32) -> Option<Status>
    ensures { option_map (λ f. f.0) result ≡ refusal_of_write s.now one.now offset count }
{
    if !is_data_open(s, one, WRITE_DATA) {
        return Some(Status::ACCESS_DENIED);
    }
    if is_write_locked(s, one, offset, u64::from(count)) {
        return Some(Status::FILE_LOCK_CONFLICT);
    }
    let size = size_of(s.nodes.as_slice(), one.node);
    if u128::from(free_of(s)) < growth(size, offset, count) {
        return Some(Status::DISK_FULL);
    }
    None
}

// The reply to a Write.
fn count_reply(count: u32) -> Rep
    ensures { result ≡ count_reply count }
{
    Rep {
        status: Status::SUCCESS,
        body: RepBody::Count(count),
    }
}

// How many bytes there are; where a reply cannot tell their count there is no memory for so many either.
fn count_of(bytes: &[u8]) -> Result<u32, NoMemory>
    ensures { IfOk result (λ count. count ≡ length bytes.now) }
{
    u32::try_from(bytes.len()).map_err(|_| NoMemory)
}

/// A Write (MS-FSA 2.1.5.4): puts the bytes into the open's file from an offset on, a gap before them filled with zeros, and tells how
/// many. Refused with FILE_CLOSED where the file id names no open of the client, ACCESS_DENIED at a directory or without WRITE_DATA,
/// FILE_LOCK_CONFLICT where another open holds a lock on some of the range or the open itself a shared one, DISK_FULL where the room
/// does not suffice; the share is then as it was. It fails only for want of memory, or where the count of the bytes has more than 32
/// bits, and then too the share is as it was.
pub fn write(
    alloc: Global,
    s: &mut Share,
    who: Who,
    fid: Fid,
    offset: u64,
    bytes: &[u8],
) -> Result<Rep, NoMemory>
    ensures ok { IfOk result (λ rep. write_of s.old who fid offset bytes.now ≡ (rep, s.new)) }
    ensures err { OnErr result (s.new ≡ s.old) }
{
    let count = count_of(bytes)?;
    let Some(open) = open_of(s.opens.as_slice(), who, fid) else {
        return Ok(of_status(Status::FILE_CLOSED));
    };
    if let Some(status) = refusal_of_write(s, open, offset, count) {
        return Ok(of_status(status));
    }
    let node = open.node;
    s.nodes.write(alloc, node, offset, bytes)?;
    Ok(count_reply(count))
}

// Why a new size is refused.
fn refusal_of_end(s: &Share, one: &Open, size: u64) -> Option<Status>
    ensures { option_map (λ f. f.0) result ≡ refusal_of_end s.now one.now size }
{
    if !is_data_open(s, one, WRITE_DATA) {
        return Some(Status::ACCESS_DENIED);
    }
    let now = size_of(s.nodes.as_slice(), one.node);
    let start = size.min(now);
    if is_write_locked(s, one, start, size.max(now) - start) {
        return Some(Status::FILE_LOCK_CONFLICT);
    }
    if free_of(s) < size.saturating_sub(now) {
        return Some(Status::DISK_FULL);
    }
    None
}

/// Gives the open's file a size (MS-FSA 2.1.5.15.4), cut off or filled up with zeros. It is refused as a Write over the bytes that come
/// or go, and then the share is as it was. It fails only for want of memory, and then too the share is as it was.
pub fn set_end(alloc: Global, s: &mut Share, who: Who, fid: Fid, size: u64) -> Result<Rep, NoMemory>
    ensures ok { IfOk result (λ rep. end_of s.old who fid size ≡ (rep, s.new)) }
    ensures err { OnErr result (s.new ≡ s.old) }
{
    let Some(open) = open_of(s.opens.as_slice(), who, fid) else {
        return Ok(of_status(Status::FILE_CLOSED));
    };
    if let Some(status) = refusal_of_end(s, open, size) {
        return Ok(of_status(status));
    }
    let node = open.node;
    s.nodes.resize(alloc, node, size)?;
    Ok(of_status(Status::SUCCESS))
}

// Why a Flush is refused.
fn refusal_of_flush(one: &Open) -> Option<Status>
    ensures { option_map (λ f. f.0) result ≡ refusal_of_flush one.now }
{
    if has(one.access, WRITE_OR_APPEND) {
        return None;
    }
    Some(Status::ACCESS_DENIED)
}

/// A Flush (MS-FSA 2.1.5.7): the share has all that was written already. Refused with FILE_CLOSED where the file id names no open of
/// the client, ACCESS_DENIED without WRITE_DATA and APPEND_DATA.
pub fn flush(s: &Share, who: Who, fid: Fid) -> Rep
    ensures { flush_of s.now who fid ≡ (result, s.now) }
{
    let Some(open) = open_of(s.opens.as_slice(), who, fid) else {
        return of_status(Status::FILE_CLOSED);
    };
    match refusal_of_flush(open) {
        Some(status) => of_status(status),
        None => of_status(Status::SUCCESS),
    }
}
