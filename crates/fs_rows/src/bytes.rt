//! Bytes in words: hex digits, digits that are repeated, and bytes that have a name.

ghost use Rattle.std.specs.Prelude.{◌≡◌, IfOk, MatchOption, take};

use crate::words::count;
use anyhow::{Context, Result, bail, ensure};
use std::alloc::Global;

/// The most bytes that one word stands for.
const LONGEST: usize = 2_000_000;

/// Bytes and their name.
#[derive(Drop)]
struct Named {
    name: String,
    bytes: Vec<u8>,
}

/// The bytes that have a name.
#[derive(Drop)]
pub struct Names {
    held: Vec<Named>,
}

impl Names {
    /// No name.
    pub fn new(alloc: Global) -> Names {
        Names {
            held: Vec::new(alloc),
        }
    }

    /// The bytes of this name.
    fn find(&self, name: &str) -> Option<&[u8]> {
        for named in &self.held {
            if named.name.as_str() == name {
                return Some(named.bytes.as_slice());
            }
        }
        None
    }

    /// Gives these bytes a name, which is a new one.
    pub fn add(&mut self, alloc: Global, name: &str, bytes: Vec<u8>) -> Result<()> {
        ensure!(self.find(name).is_none(), "a second name {name:?}");
        let name = String::from_str(alloc, name)?;
        self.held.push(Named { name, bytes })?;
        Ok(())
    }

    /// Adds bytes to those of the last name.
    pub fn add_more(&mut self, bytes: &[u8]) -> Result<()> {
        match self.held.last_mut() {
            Some(named) => named.bytes.extend_from_slice(bytes)?,
            None => bail!("no name before it"),
        }
        Ok(())
    }

    /// The bytes that these words stand for.
    pub fn bytes(&self, alloc: Global, words: &str) -> Result<Vec<u8>> {
        let mut out = Vec::new(alloc);
        for word in words.split_whitespace() {
            self.put(alloc, word, &mut out)?;
        }
        Ok(out)
    }

    /// Adds the bytes of one word.
    fn put(&self, alloc: Global, word: &str, out: &mut Vec<u8>) -> Result<()> {
        match word.strip_prefix('$') {
            Some(name) => self.put_named(name, out),
            None => put_hex(alloc, word, out),
        }
    }

    /// Adds the bytes that a name stands for, or with `NAME:N` the first N of them.
    fn put_named(&self, word: &str, out: &mut Vec<u8>) -> Result<()> {
        let (name, front) = match word.split_once(':') {
            Some((name, front)) => (name, Some(count(front)?)),
            None => (word, None),
        };
        let Some(bytes) = self.find(name) else {
            bail!("no bytes have the name {name:?}");
        };
        out.extend_from_slice(front_of(bytes, front)?)?;
        Ok(())
    }
}

/// The first bytes, so many, or all.
fn front_of(bytes: &[u8], front: Option<usize>) -> Result<&[u8]>
    ensures { IfOk result (λ r. MatchOption front (r.now ≡ bytes.now) (λ many. r.now ≡ take many bytes.now)) }
{
    match front {
        Some(many) => match bytes.get(..many) {
            Some(bytes) => Ok(bytes),
            None => bail!("there are no {many} bytes"),
        },
        None => Ok(bytes),
    }
}

/// Adds the bytes of `HEX`, or of `HEX*N` N times.
fn put_hex(alloc: Global, word: &str, out: &mut Vec<u8>) -> Result<()> {
    let (digits, times) = match word.split_once('*') {
        Some((digits, times)) => (digits, count(times)?),
        None => (word, 1),
    };
    let bytes = hex::decode(alloc, digits).context(format_args!("{digits:?} is no hex"))?;
    put_times(&bytes, times, out)
}

/// Adds these bytes so many times.
pub fn put_times(bytes: &[u8], times: usize, out: &mut Vec<u8>) -> Result<()> {
    ensure!(times <= LONGEST, "{times} times is too often");
    for _ in 0..times {
        out.extend_from_slice(bytes)?;
    }
    Ok(())
}
