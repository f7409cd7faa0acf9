//! `smb_show`: reads vectors, each a line `KIND HEX`, from the standard input, and prints each field of the message under its name in
//! MS-SMB2 or MS-FSCC, or the fault of its reader. docs/VECTORS.md lists the kinds. A line that is no vector ends the program with
//! status 1 and the line's number.
#![tactic(auto)]

mod connect;
mod fault;
mod files;
mod info;
mod line;
mod names;
mod requests;
mod wire;

use anyhow::{Result, bail};
use line::{is_vector, shown};
use std::io::{BufRead, BufReader};

fn main(rt: HostRuntime) -> Result<()> {
    let alloc = rt.alloc();
    let mut vectors: u64 = 0;
    for (i, line) in BufReader::new(alloc, rt.reader())?.lines(alloc).enumerate() {
        let line = line?;
        if is_vector(&line) {
            match shown(alloc, &line) {
                Ok(page) => print!(rt; "{}", page.as_str())?,
                Err(fault) => bail!("line {}: {fault}", i + 1),
            }
            vectors = vectors.saturating_add(1);
        } else {
            println!(rt; "{line}")?;
        }
    }
    println!(rt; "{vectors} vectors")?;
    Ok(())
}
