//! What the replies of a mount say, before it is known what the mount keeps.

ghost use Rattle.std.specs.Prelude.{◌≡◌, ◌≤◌, IsOk, Ok, length};
ghost use Rattle.smb_head.specs.Header.{head_of};
ghost use Rattle.smb_mount.specs.Replies.{Refuses, is_guest, tree_of, server_of};

use crate::facts::Server;
use crate::fault::MountFault;
use smb_body_a::NegotiateReply;
use smb_body_c::read_error_reply;
use smb_head::{Head, Route, read_head};
use smb_le::ServerCaps;

/// The header that a reply begins with.
pub fn head_in(part: &[u8]) -> Head
    requires { IsOk (head_of part.now) }
    ensures { head_of part.now ≡ Ok result }
{
    match read_head(part) {
        Ok(head) => head,
        Err(_) => unreachable!(),
    }
}

/// The fault of a reply that the server refused with: this one, unless its body is malformed.
pub fn refusal(part: &[u8], fault: MountFault) -> MountFault
    ensures { Refuses part.now fault result }
{
    match read_error_reply(part) {
        Ok(_) => fault,
        Err(malformed) => MountFault::Malformed(malformed),
    }
}

/// Whether a session is a guest's (1) or an anonymous one (2), which needs no signing (MS-SMB2 2.2.6).
pub fn is_guest(session_flags: u16) -> bool
    ensures { result ≡ is_guest session_flags }
{
    session_flags & 1 == 1 || session_flags & 2 == 2
}

/// The tree of a reply's route; 0 where the route has an AsyncId in its place.
pub fn tree_of(route: Route) -> u32
    ensures { result ≡ tree_of route }
{
    match route {
        Route::Sync(tree) => tree,
        Route::Async(_) => 0,
    }
}

/// What the server says of itself.
pub fn server_of(reply: &NegotiateReply<'_>) -> Server
    ensures { result ≡ server_of reply.now }
{
    Server {
        caps: ServerCaps(reply.capabilities),
        max_transact: reply.max_transact,
        max_read: reply.max_read,
        max_write: reply.max_write,
        guid: reply.server_guid,
    }
}
