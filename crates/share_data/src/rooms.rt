//! The room of the share.

ghost use Rattle.std.specs.Prelude.{◌≡◌};
ghost use Rattle.share_state.specs.Data.{free_room, room_reply, room_of};

use share_state::{Rep, RepBody, Share, Who, free_room, of_status, open_of};
use smb_base::{Fid, Status};

// What the files leave of the room.
pub(crate) fn free_of(s: &Share) -> u64
    ensures { result ≡ free_room s.now }
{
    free_room(s.nodes.as_slice(), s.room)
}

// The room of the share, and what of it is free.
fn room_reply(s: &Share) -> Rep
    ensures { result ≡ room_reply s.now }
{
    Rep {
        status: Status::SUCCESS,
        body: RepBody::Room {
            total: s.room,
            free: free_of(s),
        },
    }
}

/// The room of the share (MS-FSCC 2.5.4). Refused with FILE_CLOSED where the file id names no open of the client.
pub fn room(s: &Share, who: Who, fid: Fid) -> Rep
    ensures { room_of s.now who fid ≡ (result, s.now) }
{
    match open_of(s.opens.as_slice(), who, fid) {
        Some(_) => room_reply(s),
        None => of_status(Status::FILE_CLOSED),
    }
}
