//! What replies say to the requests that they answer.

use crate::frames::message_of;
use crate::row::Step;
use crate::story::put;
use anyhow::{Result, bail};
use fs_core::read_reply;
use smb_head::read_head;
use std::alloc::Global;

/// What each of these replies says to a request with its own command, one line each.
pub fn says(alloc: Global, steps: &[Step]) -> Result<Vec<u8>> {
    let mut text = Vec::new(alloc);
    for step in steps {
        match step {
            Step::Got(frame) => tell_reply(alloc, message_of(frame)?, &mut text)?,
            _ => bail!("replies alone say something"),
        }
    }
    Ok(text)
}

/// Tells what a reply says, or why it says nothing.
fn tell_reply(alloc: Global, message: &[u8], text: &mut Vec<u8>) -> Result<()> {
    let Ok(head) = read_head(message) else {
        bail!("a reply whose header does not read");
    };
    let line = match read_reply(head.command, head.status, message) {
        Ok(reply) => format!(in alloc; "{reply:?}\n")?,
        Err(fault) => format!(in alloc; "{fault:?}\n")?,
    };
    put(text, line.as_str())
}
