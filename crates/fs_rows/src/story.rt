//! The story of a link in words.

ghost use Rattle.std.specs.Prelude.{◌≡◌, ◌++◌, OnOk};

use anyhow::Result;
use smb_link::{Event, Mark};
use std::alloc::Global;

/// The words of events.
const WORDS: [&str; 16] = [
    "begin",
    "for",
    "answer",
    "now",
    "over",
    "sent",
    "got",
    "quiet",
    "joined",
    "notjoined",
    "cut",
    "took",
    "pend",
    "act",
    "break",
    "dropped",
];

/// Whether an event has this word.
pub fn is_word(word: &str) -> bool {
    for other in &WORDS {
        if *other == word {
            return true;
        }
    }
    false
}

/// Adds what happened, one line for each event that has one of these words, or for each event where there is none. Bytes that came in
/// several pieces, with nothing told in between, are one event.
pub fn tell(alloc: Global, events: &[Event], words: &[String], out: &mut Vec<u8>) -> Result<()> {
    let mut within = false;
    for event in events {
        if !is_told(event, words) {
            continue;
        }
        if let Event::Got(bytes) = event {
            if !within {
                put(out, "got ")?;
            }
            let digits = hex::encode_upper(alloc, bytes.as_slice())?;
            put(out, digits.as_str())?;
            within = true;
        } else {
            if within {
                put(out, "\n")?;
            }
            within = false;
            tell_other(alloc, event, out)?;
        }
    }
    if within {
        put(out, "\n")?;
    }
    Ok(())
}

/// Whether an event is told where these words are asked for.
fn is_told(event: &Event, words: &[String]) -> bool {
    for word in words {
        if word.as_str() == word_of(event) {
            return true;
        }
    }
    words.is_empty()
}

/// The word of an event.
fn word_of(event: &Event) -> &'static str {
    match event {
        Event::Marked(mark) => word_of_mark(mark),
        Event::Sent(_) => "sent",
        Event::Got(_) => "got",
        Event::Quiet => "quiet",
        Event::Joined => "joined",
        Event::NotJoined => "notjoined",
        Event::Cut => "cut",
        Event::Took(_) => "took",
        Event::Pend(_) => "pend",
        Event::Act(_, _, _) => "act",
        Event::Break(_, _) => "break",
        Event::Dropped(_) => "dropped",
    }
}

/// The word of a mark.
fn word_of_mark(mark: &Mark) -> &'static str {
    match mark {
        Mark::Begin(_, _, _) => "begin",
        Mark::For(_, _, _) => "for",
        Mark::Answer(_, _) => "answer",
        Mark::Now(_) => "now",
        Mark::End => "over",
    }
}

/// Adds a text.
pub fn put(out: &mut Vec<u8>, text: &str) -> Result<()>
    ensures { OnOk result (out.new.items ≡ out.old.items ++ text.now) }
{
    out.extend_from_slice(text.as_bytes())?;
    Ok(())
}

/// Adds the line of an event at which no bytes come.
fn tell_other(alloc: Global, event: &Event, out: &mut Vec<u8>) -> Result<()> {
    match event {
        Event::Marked(mark) => tell_mark(alloc, mark, out),
        Event::Sent(_) => put(out, "sent\n"),
        Event::Quiet => put(out, "quiet\n"),
        Event::Joined => put(out, "joined\n"),
        Event::NotJoined => put(out, "notjoined\n"),
        Event::Cut => put(out, "cut\n"),
        _ => tell_share(alloc, event, out),
    }
}

/// Adds the line of what a share did.
fn tell_share(alloc: Global, event: &Event, out: &mut Vec<u8>) -> Result<()> {
    match event {
        Event::Took(mid) => {
            let number = mid.0;
            put(out, format!(in alloc; "took {number}\n")?.as_str())
        }
        Event::Pend(mid) => {
            let number = mid.0;
            put(out, format!(in alloc; "pend {number}\n")?.as_str())
        }
        Event::Act(who, _, reply) => {
            let status = reply.status.0;
            put(out, format!(in alloc; "act {who} {status:08X}\n")?.as_str())
        }
        Event::Break(_, state) => put(out, format!(in alloc; "break {state}\n")?.as_str()),
        Event::Dropped(_) => put(out, "dropped\n"),
        _ => Ok(()),
    }
}

/// Adds the line of a mark.
fn tell_mark(alloc: Global, mark: &Mark, out: &mut Vec<u8>) -> Result<()> {
    match mark {
        Mark::Begin(line, lane, _) => {
            put(out, format!(in alloc; "begin {line} {lane}\n")?.as_str())
        }
        Mark::For(line, first, many) => {
            let first = first.0;
            put(
                out,
                format!(in alloc; "for {line} {first} {many}\n")?.as_str(),
            )
        }
        Mark::Answer(line, _) => put(out, format!(in alloc; "answer {line}\n")?.as_str()),
        Mark::Now(time) => put(out, format!(in alloc; "now {time}\n")?.as_str()),
        Mark::End => put(out, "over\n"),
    }
}

/// The frames that were sent.
pub fn sent(alloc: Global, events: &[Event]) -> Result<Vec<&[u8]>> {
    let mut frames = Vec::new(alloc);
    for event in events {
        if let Event::Sent(frame) = event {
            frames.push(frame.as_slice())?;
        }
    }
    Ok(frames)
}

/// How many frames were announced for a line.
pub fn marks(events: &[Event], line: u64) -> u64 {
    let mut count: u64 = 0;
    for event in events {
        if let Event::Marked(Mark::For(number, _, _)) = event {
            if *number == line {
                count = count.saturating_add(1);
            }
        }
    }
    count
}

/// How many connects were tried.
pub fn connects(events: &[Event]) -> u64 {
    let mut count: u64 = 0;
    for event in events {
        if let Event::Joined | Event::NotJoined = event {
            count = count.saturating_add(1);
        }
    }
    count
}
