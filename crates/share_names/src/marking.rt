//! SetPending: the mark of an entry that goes once it is closed.

ghost use Rattle.std.specs.Prelude.{◌≡◌, option_map};
ghost use Rattle.share_state.specs.Marks.{refusal_of_mark, mark_of};

use share_state::{
    Open, Rep, Share, Who, has, has_entries, is_directory, is_read_only, of_status, open_of,
};
use smb_base::{Fid, Status};

const DELETE: u32 = 0x10000;

const ROOT: u64 = 1;

// Why an entry may not be marked, or its mark taken back.
fn refusal_of_mark(s: &Share, open: &Open) -> Option<Status>
    ensures { option_map (λ f. f.0) result ≡ refusal_of_mark s.now «open».now }
{
    if !has(open.access, DELETE) {
        return Some(Status::ACCESS_DENIED);
    }
    if open.node == ROOT || is_read_only(s.nodes.as_slice(), open.node) {
        return Some(Status::CANNOT_DELETE);
    }
    if is_directory(s.nodes.as_slice(), open.node) && has_entries(s.entries.as_slice(), open.node) {
        return Some(Status::DIRECTORY_NOT_EMPTY);
    }
    None
}

/// A SetPending: with `on` the entry of an open goes once no open has it any more, without it stays. The reply, with `on` or without,
/// is FILE_CLOSED, or the first of: ACCESS_DENIED without DELETE; CANNOT_DELETE for the root and what is read-only;
/// DIRECTORY_NOT_EMPTY. A refused SetPending changes nothing (MS-FSA 2.1.5.15.3).
pub fn set_pending(s: &mut Share, who: Who, fid: Fid, on: bool) -> Rep
    ensures { mark_of s.old who fid on ≡ (result, s.new) }
{
    let Some(open) = open_of(s.opens.as_slice(), who, fid) else {
        return of_status(Status::FILE_CLOSED);
    };
    if let Some(status) = refusal_of_mark(s, open) {
        return of_status(status);
    }
    let number = open.entry;
    s.entries.set_pending(number, on);
    of_status(Status::SUCCESS)
}
