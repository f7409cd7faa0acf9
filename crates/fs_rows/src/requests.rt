//! What another client asks of a share, in words.

use crate::words::{cut, hex32, medium, nothing, number};
use anyhow::{Context, Result, bail, ensure};
use share_box::Turn;
use share_state::Req;
use smb_base::{Bytes, Fid, Key, Units};
use std::alloc::Global;

/// The turn of `WHO REQUEST`, in which this client makes this request.
pub fn act_of(alloc: Global, text: &str) -> Result<Turn> {
    let (who, request) = cut(text);
    Ok(Turn::Act(medium(who)?, request_of(alloc, request)?))
}

/// The request of these words.
fn request_of(alloc: Global, text: &str) -> Result<Req> {
    let (name, rest) = cut(text);
    Ok(match name {
        "create" => create_of(alloc, rest)?,
        "close" => Req::Close { fid: fid_of(rest)? },
        "flush" => Req::Flush { fid: fid_of(rest)? },
        "query" => Req::Query { fid: fid_of(rest)? },
        "room" => Req::Room { fid: fid_of(rest)? },
        _ => on_open(alloc, name, rest)?,
    })
}

/// The request with this name, of `N` and more words: N is the number of its open.
fn on_open(alloc: Global, name: &str, text: &str) -> Result<Req> {
    let (word, rest) = cut(text);
    let fid = fid_of(word)?;
    match name {
        "read" | "lock" | "unlock" => range_of(name, fid, rest),
        "write" => write_of(alloc, fid, rest),
        "rename" | "replace" | "link" => name_of(alloc, name, fid, rest),
        "reclaim" => reclaim_of(fid, rest),
        _ => number_of(name, fid, rest),
    }
}

/// A request with a number: a size, attributes in hex, the most bytes of a listing, or whether a name is to go.
fn number_of(name: &str, fid: Fid, text: &str) -> Result<Req> {
    Ok(match name {
        "setend" => Req::SetEnd {
            fid,
            size: number(text)?,
        },
        "setbasic" => Req::SetBasic {
            fid,
            attributes: hex32(text)?,
        },
        "setpending" => Req::SetPending {
            fid,
            on: number(text)? != 0,
        },
        "list" => Req::List {
            fid,
            restart: false,
            length: medium(text)?,
        },
        _ => bail!("no request has the name {name:?}"),
    })
}

/// A request with a range: `OFFSET LENGTH`, and for a lock `shared` or `exclusive`.
fn range_of(name: &str, fid: Fid, text: &str) -> Result<Req> {
    let (first, rest) = cut(text);
    let (count, how) = cut(rest);
    let offset = number(first)?;
    let length = number(count)?;
    if name == "lock" {
        ensure!(how == "shared" || how == "exclusive", "{how:?} is no lock");
        return Ok(Req::Lock {
            fid,
            offset,
            length,
            exclusive: how == "exclusive",
        });
    }
    nothing(how)?;
    if name == "unlock" {
        return Ok(Req::Unlock {
            fid,
            offset,
            length,
        });
    }
    Ok(Req::Read {
        fid,
        offset,
        length: medium(count)?,
    })
}

/// An open is reclaimed, under a key of zeros.
fn reclaim_of(fid: Fid, text: &str) -> Result<Req> {
    nothing(text)?;
    Ok(Req::Reclaim {
        fid,
        key: Key([0; 16]),
    })
}

/// The bytes of `OFFSET HEX` are written.
fn write_of(alloc: Global, fid: Fid, text: &str) -> Result<Req> {
    let (first, digits) = cut(text);
    let bytes = hex::decode(alloc, digits).context(format_args!("{digits:?} is no hex"))?;
    Ok(Req::Write {
        fid,
        offset: number(first)?,
        bytes: Bytes::of_vec(bytes),
    })
}

/// The path, from the root on, gets the file of an open: as its new name, in the place of what has it too, or as one name more.
fn name_of(alloc: Global, name: &str, fid: Fid, text: &str) -> Result<Req> {
    let path = units_of(alloc, text)?;
    if name == "link" {
        return Ok(Req::LinkTo {
            fid,
            replace: false,
            path,
        });
    }
    Ok(Req::Rename {
        fid,
        replace: name == "replace",
        path,
    })
}

/// The request of `NAME access HEX disposition N`: all is shared, no option is set, and what is made is a file.
fn create_of(alloc: Global, text: &str) -> Result<Req> {
    let (name, rest) = cut(text);
    let (access, rest) = cut(rest);
    let (bits, rest) = cut(rest);
    let (disposition, what) = cut(rest);
    ensure!(
        access == "access" && disposition == "disposition",
        "no access or no disposition"
    );
    Ok(Req::Create {
        path: units_of(alloc, name)?,
        access: hex32(bits)?,
        share: 7,
        disposition: medium(what)?,
        options: 0,
        attributes: 0x80,
        lease: None,
        durable: false,
    })
}

/// The open with this number.
fn fid_of(word: &str) -> Result<Fid> {
    let id = number(word)?;
    Ok(Fid {
        persistent: id,
        volatile: id,
    })
}

/// The units of an ASCII text.
pub fn units_of(alloc: Global, text: &str) -> Result<Units> {
    ensure!(text.is_ascii(), "{text:?} is not ASCII");
    let mut units = Units::new(alloc);
    for byte in text.as_bytes() {
        units.push(u16::from(*byte))?;
    }
    Ok(units)
}
