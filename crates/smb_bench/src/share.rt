//! Requests on a share in memory, with no connection: reads and writes of a file, and listings of a directory.

use anyhow::{Result, bail, ensure};
use share_spec::step;
use share_state::{Rep, RepBody, Req, Share, Who};
use smb_base::{Bytes, Fid, Units};
use std::alloc::Global;

/// How many bytes a request moves.
pub const PIECE: u32 = 65_536;

/// How many bytes all files may have together.
const ROOM: u64 = 1_073_741_824;

/// The client that asks.
const CLIENT: Who = Who(1);

/// READ_DATA and WRITE_DATA (MS-SMB2 2.2.13.1.1).
const READ_AND_WRITE: u32 = 3;

/// The status of a listing that has no more names.
const NO_MORE_FILES: u32 = 0x8000_0006;

/// What a request comes to.
fn ask(alloc: Global, share: &mut Share, request: &Req) -> Result<Rep> {
    if !request.is_built() {
        bail!("the share does not take this request");
    }
    let reply = step(alloc, share, CLIENT, request)?;
    Ok(reply)
}

/// The open that a CREATE of this path makes: it opens what is there, or makes a file.
fn open_of(alloc: Global, share: &mut Share, path: &[u16]) -> Result<Fid> {
    let request = Req::Create {
        path: Units::of(alloc, path)?,
        access: READ_AND_WRITE,
        share: 7,
        disposition: 3,
        options: 0,
        attributes: 0,
        lease: None,
        durable: false,
    };
    match ask(alloc, share, &request)?.body {
        RepBody::Opened { fid, .. } => Ok(fid),
        _ => bail!("a CREATE is refused"),
    }
}

/// A file that is open.
#[derive(Drop)]
pub struct OpenFile {
    alloc: Global,
    share: Share,
    fid: Fid,
    /// How many pieces it has.
    pieces: u32,
}

impl OpenFile {
    /// A file of so many pieces, each of zeros.
    pub fn of(alloc: Global, pieces: u32) -> Result<OpenFile> {
        let mut share = Share::new(alloc, ROOM, false)?;
        let fid = open_of(alloc, &mut share, &[0x66])?;
        let size = u64::from(pieces) * u64::from(PIECE);
        let reply = ask(alloc, &mut share, &Req::SetEnd { fid, size })?;
        ensure!(reply.status.0 == 0, "a size is refused");
        Ok(OpenFile {
            alloc,
            share,
            fid,
            pieces,
        })
    }

    // Where the piece with this number begins, counted on from the first one behind the last.
    fn offset_of(&self, number: u32) -> u64 {
        match number.checked_rem(self.pieces) {
            Some(place) => u64::from(place) * u64::from(PIECE),
            None => 0,
        }
    }

    /// Reads so many pieces, one after another: how many bytes came.
    pub fn read(&mut self, many: u32) -> Result<u64> {
        let mut count = 0u64;
        for number in 0..many {
            let request = Req::Read {
                fid: self.fid,
                offset: self.offset_of(number),
                length: PIECE,
            };
            match ask(self.alloc, &mut self.share, &request)?.body {
                RepBody::Bytes(bytes) => count = count.saturating_add(bytes.len() as u64),
                _ => bail!("a read is refused"),
            }
        }
        Ok(count)
    }

    /// Writes so many pieces, one after another: how many bytes were taken.
    pub fn write(&mut self, many: u32) -> Result<u64> {
        let mut count = 0u64;
        for number in 0..many {
            let request = Req::Write {
                fid: self.fid,
                offset: self.offset_of(number),
                bytes: Bytes::of_vec(vec![in self.alloc; 7u8; PIECE as usize]?),
            };
            match ask(self.alloc, &mut self.share, &request)?.body {
                RepBody::Count(bytes) => count = count.saturating_add(u64::from(bytes)),
                _ => bail!("a write is refused"),
            }
        }
        Ok(count)
    }
}

/// The units of a name of five digits, which has this number.
fn name_of(number: u32) -> [u16; 5] {
    let digit = |place: u32| -> u16 { 0x30 + (number / place % 10) as u16 };
    [digit(10_000), digit(1_000), digit(100), digit(10), digit(1)]
}

/// A share whose root has so many files, none of them open.
pub fn share_with(alloc: Global, files: u32) -> Result<Share> {
    let mut share = Share::new(alloc, ROOM, false)?;
    for number in 0..files {
        let fid = open_of(alloc, &mut share, &name_of(number))?;
        ask(alloc, &mut share, &Req::Close { fid })?;
    }
    Ok(share)
}

/// Lists the root from its first name to its last: how many names came.
pub fn listed(alloc: Global, share: &mut Share) -> Result<u64> {
    let fid = open_of(alloc, share, &[])?;
    let mut count = 0u64;
    for reply in 0..u32::MAX {
        let request = Req::List {
            fid,
            restart: reply == 0,
            length: PIECE,
        };
        let reply = ask(alloc, share, &request)?;
        match reply.body {
            RepBody::Names(names) => count = count.saturating_add(names.as_slice().len() as u64),
            _ => {
                ensure!(reply.status.0 == NO_MORE_FILES, "a listing is refused");
                return Ok(count);
            }
        }
    }
    Ok(count)
}
