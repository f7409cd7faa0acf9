//! Frames byte by byte, as MS-SMB2 2.2.1 and the bodies' own sections have them.

use smb_base::{Bytes, Key, Mid, NoMemory};
use smb_field::BodyFault;
use smb_head::HeadFault;
use smb_mux::{Malformed, Mux, Request, SubmitFault, TakeFault, Taken, Ticket, frame_len};
use std::process::Abort;

// A reply to an ECHO (MS-SMB2 2.2.29) with id 0, and an interim reply to one with id 1, which grants 2 credits.
const ECHOED: &str =
    "fe534d4240000000000000000d00000001000000000000000000000000000000000000000000000000000000000000000000000000000000000000000000000004000000";

const PENDING: &str =
    "fe534d4240000000030100000d0002000300000000000000010000000000000000000000000000000000000000000000000000000000000000000000000000000900000000000000";

// Two notices (MS-SMB2 2.2.23.2) of the lease with the key AA AA ..: to READ and HANDLE, with an acknowledgement; and to nothing.
const NOTICES: &str =
    "fe534d424000000000000000120001000100000070000000ffffffffffffffff00000000000000000000000000000000000000000000000000000000000000002c00000001000000aaaaaaaaaaaaaaaaaaaaaaaaaaaaaaaa00000000f3ffffff00000000000000000000000000000000fe534d424000000000000000120001000100000000000000ffffffffffffffff00000000000000000000000000000000000000000000000000000000000000002c00000000000000aaaaaaaaaaaaaaaaaaaaaaaaaaaaaaaa0000000000000000000000000000000000000000";

// The frame of one ECHO, and that of a CREATE, a QUERY_INFO and a CLOSE with bodies of 9, 0 and 1 bytes.
const ONE: &str =
    "00000044fe534d4240000000000000000d00200000000000000000000000000000000000000000000300000009000000000000000000000000000000000000000000000004000000";

const THREE: &str =
    "000000d1fe534d4240000000000000000500200000000000500000000100000000000000000000000300000009000000000000000000000000000000000000000000000007070707070707070700000000000000fe534d42400002000000000010002000040000004000000002000000000000000000000003000000090000000000000000000000000000000000000000000000fe534d4240000100000000000600200004000000000000000400000000000000000000000300000009000000000000000000000000000000000000000000000008";

fn bytes(rt: &(impl Abort + AllocGlobal), text: &str) -> Vec<u8> {
    match hex::decode(rt.alloc(), text) {
        Ok(bytes) => bytes,
        Err(_) => panic!(rt; "no hex"),
    }
}

fn set(bytes: &mut Vec<u8>, at: usize, byte: u8) {
    if let Some(place) = bytes.get_mut(at) {
        *place = byte;
    }
}

// A reply to the ECHO with this id: it grants so many credits.
fn echoed(rt: &(impl Abort + AllocGlobal), mid: u8, credits: u8) -> Vec<u8> {
    let mut message = bytes(rt, ECHOED);
    set(&mut message, 24, mid);
    set(&mut message, 14, credits);
    message
}

// The same, and another message behind it.
fn echoed_then(rt: &(impl Abort + AllocGlobal), mid: u8, credits: u8, next: &[u8]) -> Vec<u8> {
    let mut frame = echoed(rt, mid, credits);
    set(&mut frame, 20, 72);
    let padded = frame.extend_from_slice(&[0; 4]).is_ok();
    assert!(rt; padded && frame.extend_from_slice(next).is_ok());
    frame
}

fn request(
    rt: &(impl Abort + AllocGlobal),
    command: u16,
    charge: u16,
    related: bool,
    body: &[u8],
) -> Request {
    match Bytes::of(rt.alloc(), body) {
        Ok(body) => Request {
            command,
            charge,
            related,
            tree: 3,
            session: 9,
            body,
        },
        Err(NoMemory) => panic!(rt; "no memory"),
    }
}

fn echo(rt: &(impl Abort + AllocGlobal), charge: u16) -> Request {
    request(rt, 13, charge, false, &[4, 0, 0, 0])
}

// Puts requests in flight: none where they are starved.
fn sent(rt: &(impl Abort + AllocGlobal), mux: &mut Mux, requests: &[Request]) -> Option<Ticket> {
    assert!(rt; !requests.is_empty() && frame_len(requests).is_some());
    match mux.submit(requests) {
        Ok(ticket) => Some(ticket),
        Err(SubmitFault::Starved) => None,
        Err(SubmitFault::NoMemory) => panic!(rt; "no memory"),
    }
}

// Whether a frame is refused with this fault.
fn refused(mux: &mut Mux, frame: &[u8], fault: TakeFault) -> bool {
    match mux.take(frame) {
        Ok(_) => false,
        Err(named) => named == fault,
    }
}

// Whether a frame brings replies to these requests, in order.
fn brings(mux: &mut Mux, frame: &[u8], mids: &[u64]) -> bool {
    match mux.take(frame) {
        Ok(taken) => {
            let replies = taken.replies.as_slice();
            replies.len() == mids.len()
                && replies
                    .iter()
                    .zip(mids)
                    .all(|(reply, mid)| reply.mid.0 == *mid)
        }
        Err(_) => false,
    }
}

// A connection with one ECHO in flight, under id 0, and one with three, under the ids 1, 2 and 3, of which the last costs two.
fn with_one(rt: &(impl Abort + AllocGlobal)) -> Mux {
    let mut mux = Mux::new(rt.alloc());
    assert!(rt; sent(rt, &mut mux, &[echo(rt, 0)]).is_some());
    mux
}

fn with_three(rt: &(impl Abort + AllocGlobal)) -> Mux {
    let mut mux = with_one(rt);
    assert!(rt; brings(&mut mux, &echoed(rt, 0, 4), &[0]));
    assert!(rt; sent(rt, &mut mux, &[echo(rt, 0), echo(rt, 1), echo(rt, 2)]).is_some());
    mux
}

// Whether requests are sent as this frame, under these ids.
fn is_frame(
    rt: &(impl Abort + AllocGlobal),
    mux: &mut Mux,
    requests: &[Request],
    first: u64,
    text: &str,
) -> bool {
    match sent(rt, mux, requests) {
        Some(ticket) => {
            ticket.first == Mid(first)
                && usize::from(ticket.count) == requests.len()
                && ticket.frame.as_slice() == bytes(rt, text).as_slice()
        }
        None => false,
    }
}

#[test]
fn requests_are_one_frame_under_the_next_ids(rt: HostRuntime) {
    let mut mux = Mux::new(rt.alloc());
    assert!(rt; is_frame(&rt, &mut mux, &[echo(&rt, 0)], 0, ONE));

    // A charge of 0 uses one id too, so that none is left.
    assert!(rt; sent(&rt, &mut mux, &[echo(&rt, 0)]).is_none());
    assert!(rt; brings(&mut mux, &echoed(&rt, 0, 4), &[0]));
    let requests = [
        request(&rt, 5, 0, false, &[7; 9]),
        request(&rt, 16, 2, true, &[]),
        request(&rt, 6, 1, true, &[8]),
    ];
    assert_eq!(rt; frame_len(&requests), Some(209));
    assert!(rt; is_frame(&rt, &mut mux, &requests, 1, THREE));
    assert!(rt; sent(&rt, &mut mux, &[echo(&rt, 1)]).is_none());
}

#[test]
fn replies_come_in_any_order_and_each_once(rt: HostRuntime) {
    let mut mux = with_three(&rt);
    let frame = echoed_then(&rt, 3, 1, &bytes(&rt, PENDING));
    match mux.take(&frame) {
        Ok(taken) => {
            match taken.replies.as_slice() {
                [reply] => assert!(rt; reply.mid == Mid(3)),
                _ => assert!(rt; false, "not one"),
            }
            assert_eq!(rt; taken.interim.as_slice(), [Mid(1)].as_slice());
        }
        Err(_) => assert!(rt; false, "a fault"),
    }
    assert!(rt; refused(&mut mux, &frame, TakeFault::Stranger(Mid(3))));

    // A request that is answered twice in one frame is still in flight.
    let twice = echoed_then(&rt, 2, 9, &echoed(&rt, 2, 9));
    assert!(rt; refused(&mut mux, &twice, TakeFault::Stranger(Mid(2))));
    assert!(rt;
        brings(
            &mut mux,
            &echoed_then(&rt, 2, 0, &echoed(&rt, 1, 0)),
            &[2, 1]
        )
    );
    assert!(rt; refused(&mut mux, &echoed(&rt, 1, 9), TakeFault::Stranger(Mid(1))));

    // Three credits came, and the frames that were not taken granted none.
    assert!(rt; sent(&rt, &mut mux, &[echo(&rt, 4)]).is_none());
    assert!(rt; sent(&rt, &mut mux, &[echo(&rt, 3)]).is_some());
}

#[test]
fn notices_of_broken_leases_are_told(rt: HostRuntime) {
    let mut mux = Mux::new(rt.alloc());
    match mux.take(&bytes(&rt, NOTICES)) {
        Ok(taken) => match taken.breaks.as_slice() {
            [first, second] => {
                assert!(rt; first.key == Key([0xAA; 16]) && first.to == 3 && first.wants_ack);
                assert!(rt; second.to == 0 && !second.wants_ack);
            }
            _ => assert!(rt; false, "not two"),
        },
        Err(_) => assert!(rt; false, "a fault"),
    }
    assert!(rt; Taken::new(rt.alloc()).breaks.as_slice().is_empty());
}

#[test]
fn the_first_bad_message_is_named_and_nothing_is_lost(rt: HostRuntime) {
    let mut mux = with_one(&rt);
    // A place, the byte that stands there, how many bytes come, and what is said.
    for (at, byte, len, fault) in [
        (0, 0xFE, 63, Malformed::Head(HeadFault::Short)),
        (0, 0xFF, 68, Malformed::Head(HeadFault::Magic)),
        (4, 63, 68, Malformed::Head(HeadFault::Size)),
        (20, 60, 68, Malformed::Chain),
        (20, 68, 68, Malformed::Chain),
        (12, 5, 68, Malformed::Body(BodyFault::Value)),
        (16, 0, 68, Malformed::Body(BodyFault::Value)),
        (64, 64, 68, Malformed::Body(BodyFault::Size)),
        (64, 4, 67, Malformed::Body(BodyFault::Short)),
        (8, 3, 68, Malformed::Body(BodyFault::Short)),
    ] {
        let mut frame = echoed(&rt, 0, 1);
        set(&mut frame, at, byte);
        frame.truncate(len);
        assert!(rt;
            refused(&mut mux, &frame, TakeFault::Malformed(fault)),
            "at {at}"
        );
    }
    assert!(rt; refused(&mut mux, &echoed(&rt, 77, 1), TakeFault::Stranger(Mid(77))));
    assert!(rt; brings(&mut mux, &echoed(&rt, 0, 1), &[0]));
}

#[test]
fn a_reset_begins_anew(rt: HostRuntime) {
    let mut mux = with_three(&rt);
    mux.reset();
    assert!(rt; refused(&mut mux, &echoed(&rt, 1, 1), TakeFault::Stranger(Mid(1))));
    assert!(rt; is_frame(&rt, &mut mux, &[echo(&rt, 0)], 0, ONE));
}
