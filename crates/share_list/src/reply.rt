//! List: the next names of a directory.

ghost use Rattle.std.specs.Prelude.{◌≡◌, [], false, IfOk, OnOk, OnErr, take, drop, option_map, Some};
ghost use Rattle.share_state.specs.Close.{open_of};
ghost use Rattle.share_state.specs.Listing.{in_reply, left_in, snapshot_in, refusal_of_list, with_snapshot, names_reply, list_of};
ghost use Rattle.share_state.specs.declared.request.RepBody.TheVariants as body;

use crate::fitting::in_reply;
use crate::snapshot::snapshot_of;
use share_state::{
    Open, OpenList, Rep, RepBody, Share, ShareNameList, Who, has, is_directory, of_status, open_of,
};
use smb_base::{Fid, NoMemory, Status};
use std::alloc::Global;

const READ_DATA: u32 = 1;

// Why a List is refused.
fn refusal_of_list(s: &Share, one: &Open) -> Option<Status>
    ensures { option_map (λ f. f.0) result ≡ refusal_of_list s.now one.now }
{
    if has(one.access, READ_DATA) && is_directory(s.nodes.as_slice(), one.node) {
        return None;
    }
    Some(Status::ACCESS_DENIED)
}

// Takes the names of the next reply off those that are left. For want of memory these stay as they are.
fn next_names(left: &mut ShareNameList, room: u32) -> Result<ShareNameList, NoMemory>
    ensures taken { IfOk result (λ l. l ≡ take (in_reply room left.old) left.old) }
    ensures left { OnOk result (left.new ≡ drop (in_reply room left.old) left.old) }
    ensures err { OnErr result (left.new ≡ left.old) }
{
    let count = in_reply(room, left.as_slice());
    left.take_front(count)
}

// A reply that has these names.
fn reply_of(names: ShareNameList) -> Rep
    ensures { result ≡ record { status = record { 0 = 0 }; body = body.Names names } }
{
    Rep {
        status: Status::SUCCESS,
        body: RepBody::Names(names),
    }
}

// Has these names be what is left of the listing of an open.
fn put_back(opens: &mut OpenList, who: Who, fid: Fid, left: ShareNameList)
    ensures { opens.new ≡ with_snapshot who fid (Some left) opens.old }
{
    opens.replace_snapshot(who, fid, Some(left));
}

// The first reply of a listing that has all these names.
fn begin(s: &mut Share, who: Who, fid: Fid, all: ShareNameList, room: u32) -> Result<Rep, NoMemory>
    ensures ok { IfOk result (λ rep. names_reply s.old who fid all room ≡ (rep, s.new)) }
    ensures err { OnErr result (s.new ≡ s.old) }
{
    if all.as_slice().is_empty() {
        return Ok(of_status(Status::NO_MORE_FILES));
    }
    let mut left = all;
    let names = next_names(&mut left, room)?;
    put_back(&mut s.opens, who, fid, left);
    Ok(reply_of(names))
}

// The next reply of a listing that was begun.
#[tactic(auto, using(crate::proofs::Begun::with_snapshot_again, crate::proofs::Begun::with_snapshot_back))]
fn go_on(s: &mut Share, who: Who, fid: Fid, room: u32) -> Result<Rep, NoMemory>
    ensures ok { IfOk result (λ rep. names_reply s.old who fid (left_in [] false (snapshot_in (open_of s.old.opens who fid))) room ≡ (rep, s.new)) }
    ensures err { OnErr result (s.new ≡ s.old) }
{
    let Some(mut left) = s.opens.replace_snapshot(who, fid, None) else {
        return Ok(of_status(Status::NO_MORE_FILES));
    };
    if left.as_slice().is_empty() {
        put_back(&mut s.opens, who, fid, left);
        return Ok(of_status(Status::NO_MORE_FILES));
    }
    let taken = next_names(&mut left, room);
    put_back(&mut s.opens, who, fid, left);
    Ok(reply_of(taken?))
}

/// The next names of a directory that a file id of a client names, `.` and `..` first, as many as fit into so many bytes and at least
/// one; from the first one on where no listing was begun or where it is to begin again (MS-FSA 2.1.5.6.3). The reply has the status
/// FILE_CLOSED where the file id names no open, ACCESS_DENIED where the open is of no directory or may not read, and NO_MORE_FILES
/// where no name is left. It fails only for want of memory, and then the share is as it was.
pub fn list(
    alloc: Global,
    s: &mut Share,
    who: Who,
    fid: Fid,
    restart: bool,
    length: u32,
) -> Result<Rep, NoMemory>
    ensures ok { IfOk result (λ rep. list_of s.old who fid restart length ≡ (rep, s.new)) }
    ensures err { OnErr result (s.new ≡ s.old) }
{
    let Some(one) = open_of(s.opens.as_slice(), who, fid) else {
        return Ok(of_status(Status::FILE_CLOSED));
    };
    if let Some(status) = refusal_of_list(s, one) {
        return Ok(of_status(status));
    }
    if one.snapshot.is_some() && !restart {
        return go_on(s, who, fid, length);
    }
    let all = snapshot_of(alloc, s, one.node)?;
    begin(s, who, fid, all, length)
}
