//! Rows of tests as data. It reads rows from the standard input, plays each over a link in memory, and prints `row NAME ok`, or what was
//! wanted and what was found. The last line counts the rows. docs/ROWS.md has the form of a row.
//!
//! A line that says nothing a row knows ends the program with its number and the status 1, before anything is played; so does a row that
//! does not come out, once all were played.
#![tactic(auto)]

mod book;
mod bytes;
mod frames;
mod mount;
mod outcome;
mod requests;
mod row;
mod says;
mod slow;
mod story;
mod words;

use anyhow::{Context, Result, ensure};
use book::Book;
use outcome::{found, wanted};
use std::io::{BufRead, BufReader};
use test_text::is_same;

/// The size of pieces where a row says none.
const WHOLE: usize = 65_536;

fn main(rt: HostRuntime) -> Result<()> {
    let book = read(&rt)?;
    let mut good: usize = 0;
    for number in 0..book.len() {
        if play(&rt, &book, number)? {
            good = good.saturating_add(1);
        }
    }
    let all = book.len();
    println!(rt; "{all} rows, {good} ok")?;
    ensure!(good == all, "not all rows came out");
    Ok(())
}

/// The rows of the standard input. Each of them is well formed.
fn read(rt: &(impl Input + AllocGlobal)) -> Result<Book> {
    let alloc = rt.alloc();
    let mut book = Book::new(alloc);
    for (at, line) in BufReader::new(alloc, rt.reader())?.lines(alloc).enumerate() {
        book.add(alloc, line?)
            .context(format_args!("line {}", at.saturating_add(1)))?;
    }
    for number in 0..book.len() {
        let _ = book.row(alloc, number)?;
    }
    Ok(book)
}

/// Plays a row once for each size of its pieces, and says whether it came out each time.
fn play(rt: &(impl Print + AllocGlobal), book: &Book, number: usize) -> Result<bool> {
    let row = book.row(rt.alloc(), number)?;
    if row.pieces.is_empty() && !once(rt, book, number, WHOLE)? {
        return Ok(false);
    }
    for size in &row.pieces {
        if !once(rt, book, number, *size)? {
            return Ok(false);
        }
    }
    let name = book.name(number);
    println!(rt; "row {name} ok")?;
    Ok(true)
}

/// Plays a row in pieces of this size, and says whether it came out. If not, it prints what was wanted and what was found.
fn once(rt: &(impl Print + AllocGlobal), book: &Book, number: usize, size: usize) -> Result<bool> {
    let alloc = rt.alloc();
    let mut row = book.row(alloc, number)?;
    let name = book.name(number);
    let want = wanted(alloc, &row.wanted)?;
    let got = found(alloc, &mut row, size).context(format_args!("row {name}"))?;
    if is_same(&want, &got) {
        return Ok(true);
    }
    println!(rt; "row {name} in pieces of {size}: wanted")?;
    show(rt, &want)?;
    println!(rt; "row {name} in pieces of {size}: found")?;
    show(rt, &got)?;
    Ok(false)
}

/// Prints a text, or in hex what is none.
fn show(rt: &(impl Print + AllocGlobal), bytes: &[u8]) -> Result<()> {
    match str::from_utf8(bytes) {
        Ok(text) => print!(rt; "{text}")?,
        Err(_) => {
            let digits = hex::encode_upper(rt.alloc(), bytes)?;
            println!(rt; "{digits}")?;
        }
    }
    Ok(())
}
