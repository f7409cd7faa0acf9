//! Close, and what goes with an open.

ghost use Rattle.std.specs.Prelude.{◌≡◌};
ghost use Rattle.share_state.specs.Close.{settled, ended, after_delete, close_of};

use share_state::{EntryList, Rep, Share, Who, has_entries, of_status, open_of};
use smb_base::{Fid, Status};

// Takes off what nothing holds any more.
fn settle(s: &mut Share)
    ensures { s.new ≡ settled s.old }
{
    s.entries.keep(s.opens.as_slice());
    s.nodes.keep(s.opens.as_slice(), s.entries.as_slice());
    s.leases.keep(s.opens.as_slice());
}

// Has the entry of an open that ends go, where it was opened so and its directory has no entries.
fn delete_entry(entries: &mut EntryList, delete: bool, node: u64, entry: u64)
    ensures { entries.new ≡ after_delete delete node entry entries.old }
{
    if delete && !has_entries(entries.as_slice(), node) {
        entries.mark(entry);
    }
}

// Ends an open, given what it was.
pub(crate) fn end(s: &mut Share, number: u64, node: u64, entry: u64, delete: bool)
    ensures { s.new ≡ ended number node entry delete s.old }
{
    s.opens.remove(number);
    s.locks.release(number);
    delete_entry(&mut s.entries, delete, node, entry);
    settle(s);
}

// A Close.
pub(crate) fn close(s: &mut Share, who: Who, fid: Fid) -> Rep
    ensures { close_of s.old who fid ≡ (result, s.new) }
{
    match open_of(s.opens.as_slice(), who, fid) {
        Some(open) => {
            let (number, node, entry, delete) = (
                open.number,
                open.node,
                open.entry,
                open.delete_on_close,
            );
            end(s, number, node, entry, delete);
            of_status(Status::SUCCESS)
        }
        None => of_status(Status::FILE_CLOSED),
    }
}
