//! The kinds of what stands round every message, as `smb_head` and `smb_chain` read it.

use smb_base::{Bytes, NoMemory};
use smb_chain::{BadNext, ChainBuilder, first_part, split};
use smb_head::{
    FrameFault, HeadFault, MAX_FRAME, Route, first_frame, frame_lacks, frame_start, frames_of,
    read_head, write_head,
};
use std::alloc::Global;
use test_text::{Item, Page};

/// Adds the lines of a vector, if its kind is one of these.
pub fn show(page: &mut Page, kind: &str, bytes: &[u8]) -> Result<bool, NoMemory> {
    match kind {
        "head" => head(page, bytes)?,
        "first_frame" => frame(page, bytes)?,
        "frames" => frames(page, bytes)?,
        "first_part" => part(page, bytes)?,
        "split" => parts(page, bytes)?,
        _ => return Ok(false),
    }
    Ok(true)
}

// The header of a message (MS-SMB2 2.2.1).
fn head(page: &mut Page, bytes: &[u8]) -> Result<(), NoMemory> {
    match read_head(bytes) {
        Err(fault) => head_fault(page, fault),
        Ok(x) => {
            page.fields(&[
                Item::Number("StructureSize", 64),
                Item::Number("CreditCharge", u64::from(x.charge)),
                Item::Number("Status", u64::from(x.status.0)),
                Item::Number("Command", u64::from(x.command)),
                Item::Number("CreditRequest/CreditResponse", u64::from(x.credits)),
                Item::Number("Flags", u64::from(x.flags.0)),
                Item::Number("NextCommand", u64::from(x.next)),
                Item::Number("MessageId", x.mid.0),
                route(x.route),
                Item::Number("SessionId", x.session),
            ])?;
            let mut again = Vec::new(page.alloc());
            if x.is_routed() {
                write_head(&mut again, &x)?;
            }
            page.again(&again, bytes)
        }
    }
}

// Where a message belongs (MS-SMB2 2.2.1.1 and 2.2.1.2).
fn route(route: Route) -> Item<'static> {
    match route {
        Route::Sync(tree) => Item::Number("TreeId", u64::from(tree)),
        Route::Async(id) => Item::Number("AsyncId", id),
    }
}

fn head_fault(page: &mut Page, fault: HeadFault) -> Result<(), NoMemory> {
    page.fault(match fault {
        HeadFault::Short => "Short",
        HeadFault::Magic => "Magic",
        HeadFault::Size => "Size",
    })
}

// The first frame of a stream (MS-SMB2 2.1), or how many bytes it lacks.
fn frame(page: &mut Page, bytes: &[u8]) -> Result<(), NoMemory> {
    match first_frame(bytes) {
        Err(fault) => frame_fault(page, fault),
        Ok(None) => page.fields(&[Item::Number("lacks", frame_lacks(bytes) as u64)]),
        Ok(Some(message)) => {
            frame_fields(page, message)?;
            let mut again = Vec::new(page.alloc());
            put_frame(&mut again, message)?;
            page.again(&again, bytes)
        }
    }
}

// All frames of a stream, what is wrong behind them, and how many bytes the next one lacks.
fn frames(page: &mut Page, bytes: &[u8]) -> Result<(), NoMemory> {
    let stream = [Bytes::of(page.alloc(), bytes)?];
    let received = frames_of(page.alloc(), &stream)?;
    let mut again = Vec::new(page.alloc());
    for message in &received.frames {
        frame_fields(page, message.as_slice())?;
        put_frame(&mut again, message.as_slice())?;
    }
    if let Some(fault) = received.fault {
        return frame_fault(page, fault);
    }
    if let Some(rest) = bytes.get(again.len()..) {
        page.fields(&[Item::Number("lacks", frame_lacks(rest) as u64)])?;
    }
    page.again(&again, bytes)
}

fn frame_fields(page: &mut Page, message: &[u8]) -> Result<(), NoMemory> {
    page.fields(&[
        Item::Number("StreamProtocolLength", message.len() as u64),
        Item::Bytes("SMB2Message", message),
    ])
}

// Writes a frame again, if it is one that may be written.
fn put_frame(out: &mut Vec<u8>, message: &[u8]) -> Result<(), NoMemory> {
    if message.len() <= MAX_FRAME {
        out.extend_from_slice(&frame_start(message.len()))?;
        out.extend_from_slice(message)?;
    }
    Ok(())
}

fn frame_fault(page: &mut Page, fault: FrameFault) -> Result<(), NoMemory> {
    match fault {
        FrameFault::NotZero(byte) => {
            page.fields(&[Item::Number("Zero", u64::from(byte))])?;
            page.fault("NotZero")
        }
        FrameFault::TooLarge(len) => {
            page.fields(&[Item::Number("StreamProtocolLength", u64::from(len))])?;
            page.fault("TooLarge")
        }
        FrameFault::NoMemory => Err(NoMemory),
    }
}

// The first message of a frame, and what stands behind it.
fn part(page: &mut Page, frame: &[u8]) -> Result<(), NoMemory> {
    match first_part(frame) {
        Err(BadNext) => page.fault("BadNext"),
        Ok((first, None)) => page.fields(&[Item::Bytes("Message", first)]),
        Ok((first, Some(rest))) => {
            page.fields(&[Item::Bytes("Message", first), Item::Bytes("Rest", rest)])
        }
    }
}

// The messages of a frame (MS-SMB2 3.2.4.1.4).
fn parts(page: &mut Page, frame: &[u8]) -> Result<(), NoMemory> {
    for part in split(frame) {
        match part {
            Ok(message) => page.fields(&[Item::Bytes("Message", message)])?,
            Err(BadNext) => return page.fault("BadNext"),
        }
    }
    match chained(page.alloc(), frame)? {
        Some(again) => match again.as_slice().get(4..) {
            Some(behind) => page.again(behind, frame),
            None => Ok(()),
        },
        None => Ok(()),
    }
}

// The messages of a frame as one frame again, if each has a header and may be written.
fn chained(alloc: Global, frame: &[u8]) -> Result<Option<Bytes>, NoMemory> {
    let mut chain = ChainBuilder::new(alloc);
    for part in split(frame) {
        let Ok(message) = part else {
            return Ok(None);
        };
        if !add(&mut chain, message)? {
            return Ok(None);
        }
    }
    Ok(Some(chain.finish()?))
}

// Adds a message to a chain, if it has a header and may be added.
fn add(chain: &mut ChainBuilder, message: &[u8]) -> Result<bool, NoMemory> {
    let Ok(head) = read_head(message) else {
        return Ok(false);
    };
    let Some(body) = message.get(64..) else {
        return Ok(false);
    };
    if !head.is_routed() || !chain.has_room(body.len()) {
        return Ok(false);
    }
    chain.add(&head, body)?;
    Ok(true)
}
