//! Requests as one frame, under the next ids.

ghost use Rattle.std.specs.Prelude.{◌≡◌, ◌+◌, ◌≤◌, ◌<◌, ◌++◌, ◌∷◌, [], length, replicate, IfSome, IfNone, IfOk, OnOk, if◌then◌else◌};
ghost use Rattle.smb_head.specs.declared.first.TheConstants.{MAX_FRAME};
ghost use Rattle.smb_head.specs.Header.{IsRouted, header};
ghost use Rattle.smb_head.specs.Stream.{frame};
ghost use Rattle.smb_chain.specs.Chain.{chain, padded, linked, part_for};
ghost use Rattle.smb_credit.specs.Window.{usable, least, cost};
ghost use Rattle.smb_mux.specs.Sending.{costs, ids_after, head_for, message_for, placed, room_of, part_room};

use smb_base::{Bytes, Mid, NoMemory, Status};
use smb_credit::Window;
use smb_head::{Head, MAX_FRAME, Request, Route, frame_start, write_head};
use smb_le::HeadFlags;
use std::alloc::Global;

/// How many credits each request asks for.
const CREDITS: u16 = 32;

/// How many bytes the frame of these requests has, its first four not counted; none where these are more than [`MAX_FRAME`]. It takes
/// no memory.
pub fn frame_len(requests: &[Request]) -> Option<usize>
    ensures some { IfSome result (λ len. (len ≡ room_of requests.now) × (len ≤ MAX_FRAME)) }
    ensures none { IfNone result (MAX_FRAME < room_of requests.now) }
{
    let mut len = 0;
    for (i, request) in requests.iter().enumerate() {
        let body = request.body.len();
        if body > MAX_FRAME {
            return None;
        }
        len += part_len(body, i + 1 == requests.len());
        if len > MAX_FRAME {
            return None;
        }
    }
    Some(len)
}

// How many bytes a message has, with the zero bytes before the next one.
fn part_len(body: usize, last: bool) -> usize
    requires { body ≤ MAX_FRAME }
    ensures { result ≡ part_room body last }
{
    if last {
        64 + body
    } else {
        padded_len(64 + body)
    }
}

fn padded_len(len: usize) -> usize
    requires { len ≤ 64 + MAX_FRAME }
    ensures { result ≡ padded len }
{
    (len + 7) / 8 * 8
}

/// How many ids a request of this charge uses: one also where its charge is 0.
pub(crate) fn cost(charge: u16) -> u16
    ensures { result ≡ cost charge }
{
    charge.max(1)
}

// The first id of these requests and the ids once they are sent; none where they cost more than may be used.
pub(crate) fn sent(window: &Window, requests: &[Request]) -> Option<Window>
    ensures some { IfSome result (λ ids. (costs requests.now ≤ length (usable window.now)) × (ids ≡ ids_after window.now requests.now)) }
    ensures none { IfNone result (length (usable window.now) < costs requests.now) }
{
    let mut ids = window.copy();
    for request in requests {
        match ids.take(cost(request.charge)) {
            Some(_) => {}
            None => return None,
        }
    }
    Some(ids)
}

// The frame of these requests, which has so many bytes behind its first four.
pub(crate) fn framed(
    alloc: Global,
    window: &Window,
    requests: &[Request],
    len: usize,
) -> Result<Bytes, NoMemory>
    requires room { (len ≡ room_of requests.now) × (len ≤ MAX_FRAME) }
    requires enough { costs requests.now ≤ length (usable window.now) }
    ensures { IfOk result (λ b. b ≡ frame (chain (placed window.now requests.now))) }
{
    let mut out = Vec::with_capacity(alloc, 4 + len)?;
    out.extend_from_slice(&frame_start(len))?;
    put_requests(&mut out, window, requests)?;
    Ok(Bytes::of_vec(out))
}

fn put_requests(out: &mut Vec<u8>, window: &Window, requests: &[Request]) -> Result<(), NoMemory>
    requires room { room_of requests.now ≤ MAX_FRAME }
    requires enough { costs requests.now ≤ length (usable window.now) }
    ensures { OnOk result (out.new.items ≡ out.old.items ++ chain (placed window.now requests.now)) }
{
    let mut ids = window.copy();
    for (i, request) in requests.iter().enumerate() {
        match ids.take(cost(request.charge)) {
            Some(mid) => put_request(out, request, mid, i + 1 == requests.len())?,
            None => unreachable!(),
        }
    }
    Ok(())
}

fn put_request(out: &mut Vec<u8>, request: &Request, mid: Mid, last: bool) -> Result<(), NoMemory>
    requires { 64 + length request.now.body ≤ MAX_FRAME }
    ensures { OnOk result (out.new.items ≡ out.old.items ++ part_for (message_for mid.0 request.now) last) }
{
    let size = 64 + request.body.len();
    if last {
        put_with(out, request, mid, 0, 0)
    } else {
        let next = padded_len(size);
        put_with(out, request, mid, next as u32, next - size)
    }
}

fn put_with(
    out: &mut Vec<u8>,
    request: &Request,
    mid: Mid,
    next: u32,
    zeros: usize,
) -> Result<(), NoMemory>
    requires { zeros < 8 }
    ensures { OnOk result (out.new.items ≡ out.old.items
        ++ (header (linked (head_for mid.0 request.now) next) ++ (request.now.body ++ replicate zeros 0))) }
{
    let head = head_of(request, mid, next);
    write_head(out, &head)?;
    out.extend_from_slice(request.body.as_slice())?;
    out.extend_from_slice(&[0; 8][..zeros])?;
    Ok(())
}

fn head_of(request: &Request, mid: Mid, next: u32) -> Head
    ensures value { result ≡ linked (head_for mid.0 request.now) next }
    ensures routed { IsRouted result }
{
    Head {
        charge: request.charge,
        status: Status::SUCCESS,
        command: request.command,
        credits: CREDITS,
        flags: flags_of(request.related),
        next,
        mid,
        route: Route::Sync(request.tree),
        session: request.session,
    }
}

fn flags_of(related: bool) -> HeadFlags
    ensures { result.0 ≡ (if related then 4 else 0) }
{
    if related {
        HeadFlags::RELATED
    } else {
        HeadFlags(0)
    }
}
