//! Read.

ghost use Rattle.std.specs.Prelude.{◌≡◌, IfOk, option_map, take, drop};
ghost use Rattle.share_state.specs.Data.{is_data_open, refusal_of_read, read_reply, read_of};

use crate::ranges::is_read_locked;
use share_state::{
    Open, Rep, RepBody, Share, Who, bytes_of, has, is_directory, of_status, open_of, size_of,
};
use smb_base::{Bytes, Fid, NoMemory, Status};
use std::alloc::Global;

const READ_DATA: u32 = 1;

// The open is of a file, and has one of these kinds of access.
pub(crate) fn is_data_open(s: &Share, one: &Open, access: u32) -> bool
    ensures { result ≡ is_data_open s.now one.now access }
{
    has(one.access, access) && !is_directory(s.nodes.as_slice(), one.node)
}

// Why a Read is refused.
fn refusal_of_read(s: &Share, one: &Open, offset: u64, length: u32) -> Option<Status>
    ensures { option_map (λ f. f.0) result ≡ refusal_of_read s.now one.now offset length }
{
    if !is_data_open(s, one, READ_DATA) {
        return Some(Status::ACCESS_DENIED);
    }
    if is_read_locked(s, one, offset, u64::from(length)) {
        return Some(Status::FILE_LOCK_CONFLICT);
    }
    if 0 < length && size_of(s.nodes.as_slice(), one.node) <= offset {
        return Some(Status::END_OF_FILE);
    }
    None
}

// Those of the bytes that an offset and a length name and that are there.
fn part_of(bytes: &[u8], offset: u64, length: u32) -> &[u8]
    ensures { result.now ≡ take length (drop offset bytes.now) }
{
    let start = bytes.len().min(offset as usize);
    let count = (bytes.len() - start).min(length as usize);
    &bytes[start..start + count]
}

// The bytes from an offset on, as many as are asked for and there.
fn read_reply(
    alloc: Global,
    s: &Share,
    one: &Open,
    offset: u64,
    length: u32,
) -> Result<Rep, NoMemory>
    ensures { IfOk result (λ rep. rep ≡ read_reply s.now one.now offset length) }
{
    let bytes = bytes_of(s.nodes.as_slice(), one.node);
    Ok(Rep {
        status: Status::SUCCESS,
        body: RepBody::Bytes(Bytes::of(alloc, part_of(bytes, offset, length))?),
    })
}

/// A Read (MS-FSA 2.1.5.3): gives the bytes of the open's file from an offset on, at most as many as the length says. Refused with
/// FILE_CLOSED where the file id names no open of the client, ACCESS_DENIED at a directory or without READ_DATA, FILE_LOCK_CONFLICT
/// where another open holds an exclusive lock on some of it, END_OF_FILE where it begins at the end or behind it and wants a byte. It
/// fails only for want of memory.
pub fn read(
    alloc: Global,
    s: &Share,
    who: Who,
    fid: Fid,
    offset: u64,
    length: u32,
) -> Result<Rep, NoMemory>
    ensures { IfOk result (λ rep. read_of s.now who fid offset length ≡ (rep, s.now)) }
{
    let Some(open) = open_of(s.opens.as_slice(), who, fid) else {
        return Ok(of_status(Status::FILE_CLOSED));
    };
    match refusal_of_read(s, open, offset, length) {
        Some(status) => Ok(of_status(status)),
        None => read_reply(alloc, s, open, offset, length),
    }
}
