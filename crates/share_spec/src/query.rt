//! Query.

ghost use Rattle.std.specs.Prelude.{◌≡◌};
ghost use Rattle.share_state.specs.Query.{info_reply, query_of};

use share_state::{
    Rep, RepBody, Share, Who, is_directory, is_pending, is_read_only, links_of, of_status, open_of,
    size_of,
};
use smb_base::{Fid, Status};

// What is known of the file of an open.
fn info_reply(s: &Share, node: u64, entry: u64) -> Rep
    ensures { result ≡ info_reply s.now node entry }
{
    Rep {
        status: Status::SUCCESS,
        body: RepBody::Info {
            dir: is_directory(s.nodes.as_slice(), node),
            size: size_of(s.nodes.as_slice(), node),
            read_only: is_read_only(s.nodes.as_slice(), node),
            links: links_of(s.entries.as_slice(), node),
            pending: is_pending(s.entries.as_slice(), entry),
            number: node,
        },
    }
}

// A Query.
pub(crate) fn query(s: &Share, who: Who, fid: Fid) -> Rep
    ensures { query_of s.now who fid ≡ (result, s.now) }
{
    match open_of(s.opens.as_slice(), who, fid) {
        Some(open) => info_reply(s, open.node, open.entry),
        None => of_status(Status::FILE_CLOSED),
    }
}
