//! The frame that a ping sends.

ghost use Rattle.std.specs.Prelude.{◌≡◌, ◌++◌, IfOk, OnOk};
ghost use Rattle.fs_top.specs.Ping.Request.{ping_frame};

use smb_base::{Mid, NoMemory, Status};
use smb_body_a::{NegotiateRequest, write_negotiate_request};
use smb_head::command::NEGOTIATE;
use smb_head::{Head, Route, frame_start, write_head};
use smb_le::HeadFlags;
use std::alloc::Global;

/// The bytes of the message: a header and the body of one dialect.
const MESSAGE: usize = 102;

/// The NEGOTIATE request that offers SMB 2.1 alone, as a frame. The seed is the client's id. It fails only for want of memory.
pub fn request_frame(alloc: Global, seed: [u8; 16]) -> Result<Vec<u8>, NoMemory>
    ensures { IfOk result (λ frame. frame.items ≡ ping_frame seed) }
{
    let head = Head {
        charge: 0,
        status: Status::SUCCESS,
        command: NEGOTIATE,
        credits: 32,
        flags: HeadFlags(0),
        next: 0,
        mid: Mid(0),
        route: Route::Sync(0),
        session: 0,
    };
    let request = NegotiateRequest {
        client_guid: seed,
        dialects: &[0x10, 0x02],
    };
    let mut frame = Vec::from_slice(alloc, &frame_start(MESSAGE))?;
    write_head(&mut frame, &head)?;
    write_negotiate_request(&mut frame, &request)?;
    Ok(frame)
}
