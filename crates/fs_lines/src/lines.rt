//! The lines of a source.

ghost use Rattle.std.specs.Prelude.{◌≡◌, ◌+◌, ◌<◌, ◌≤◌, [], ℕ, List, Some, None, IfSome, true, false, length, take, drop, vec_len, vec_capacity, ◌++◌, MatchOption, if◌then◌else◌};
ghost use Rattle.smb_link.specs.Count.{counted};
ghost use Rattle.fs_lines.specs.declared.next.NextLine.TheVariants.{TooLong};
ghost use Rattle.fs_lines.specs.Line.{first_line, behind, EndsAt, Gives, NeedsEnd, is_line, is_failed};
ghost use Rattle.fs_lines.specs.Told.{ahead, Gave};
ghost use Rattle.fs_lines.specs.Steps.{Filled, Looked, IsOpen, Begins, Copied, is_fill_failed, is_found_failed};

use crate::next::NextLine;
use crate::search::{MAX_LINE, first_end};
use smb_base::{NoMemory, Text};
use smb_link::{Failed, Source};
use std::alloc::Global;
use std::marker::Model;

// The most bytes that one read takes.
const PIECE: usize = 8192;

/// The bytes that were read and not yet given, whether the end was met, and the number of the last line. It goes with one source.
///
/// What is held lies in `bytes` from `start` on; the bytes before it were given. They are dropped once they are no fewer than those
/// after them, so that each byte is moved a bounded number of times.
#[derive(Drop)]
pub struct Lines {
    alloc: Global,
    bytes: Vec<u8>,
    start: usize,
    ended: bool,
    number: u64,
}

impl Model for Lines {
    ghost use Rattle.std.specs.Prelude.{◌≤◌, drop, vec_len};
    ghost use Rattle.fs_lines.specs.Told.{Reading};

    ghost Value = { Reading };

    ghost view = { λ l. record { held = drop l.start l.bytes.items; ended = l.ended; number = l.number } };

    ghost invariant = { λ l. l.start ≤ vec_len l.bytes };
}

// What a read brought.
enum Fill {
    More,
    Ended,
    Failed,
    NoMemory,
}

// How the bytes held begin.
enum LineSearch {
    // A line of so many bytes, and its LF.
    Whole(usize),
    // No LF, and nothing more comes.
    Last,
    // More than a line may have.
    Long,
    Failed,
    NoMemory,
}

impl Lines {
    /// Nothing read yet. It takes no memory.
    pub fn new(alloc: Global) -> Lines
        ensures { result ≡ record { held = []; ended = false; number = 0 } }
    {
        Lines {
            alloc,
            bytes: Vec::new(alloc),
            start: 0,
            ended: false,
            number: 0,
        }
    }

    /// The number of the line that was last given or refused, from 1; 0 before the first. It takes no memory.
    pub fn number(&self) -> u64
        ensures { result ≡ self.now.number }
    {
        self.number
    }

    /// The next line of the source, without the LF that ends it. Where bytes are left behind the last LF, they are a line too.
    ///
    /// `NotText` where it is not UTF-8, and `TooLong` where it has more than `MAX_LINE` bytes, which goes before; that line stays, and
    /// is refused again. `End` where no byte is left; from then on nothing is read. After `Failed` and `NoMemory` nothing is lost.
    pub fn next<S: Source>(&mut self, source: &mut S) -> NextLine
        ensures gave { (got : List ℕ) × Gave (S.left source.old) (S.left source.new) self.old self.new result got }

        // Where the source tells what is left, the answer is that of all that is ahead.
        ensures told { IfSome (S.left source.old) (λ before. IfSome (S.left source.new) (λ after.
            Gives result (ahead self.old before) (ahead self.new after))) }
        ensures faults { S.faults source.new ≡ counted (S.faults source.old) (is_failed result) }
        ensures number { self.new.number ≡ counted self.old.number (is_line result) }
    {
        self.answer(source)
    }

    // The answer, by what was got.
    fn answer<S: Source>(&mut self, source: &mut S) -> NextLine
        ensures gave { (got : List ℕ) × Gave (S.left source.old) (S.left source.new) self.old self.new result got }
        ensures faults { S.faults source.new ≡ counted (S.faults source.old) (is_failed result) }
        ensures number { self.new.number ≡ counted self.old.number (is_line result) }
    {
        match self.find(source) {
            LineSearch::Whole(n) => self.give_first(n),
            LineSearch::Last => self.give_last(),
            LineSearch::Long => self.refuse(),
            LineSearch::Failed => NextLine::Failed,
            LineSearch::NoMemory => NextLine::NoMemory,
        }
    }

    // Reads until the first line is held, or as much of it as tells that it is too long.
    fn find<S: Source>(&mut self, source: &mut S) -> LineSearch
        ensures found { (got : List ℕ) × Looked (S.left source.old) (S.left source.new) self.old self.new result got }
        ensures faults { S.faults source.new ≡ counted (S.faults source.old) (is_found_failed result) }
    {
        let mut seen = 0;
        loop {
            match self.look(seen) {
                Some(found) => return found,
                None => {}
            }
            seen = self.pending().len();
            match self.fill(source) {
                Fill::More => {}
                Fill::Ended => return LineSearch::Last,
                Fill::Failed => return LineSearch::Failed,
                Fill::NoMemory => return LineSearch::NoMemory,
            }
        }
    }

    // How the bytes held begin, where that is told without a read; in the first `seen` of them there is no LF.
    fn look(&self, seen: usize) -> Option<LineSearch>
        requires { (seen ≤ length self.now.held) × (first_line (take seen self.now.held) ≡ take seen self.now.held) }
        ensures { MatchOption result (IsOpen self.now.held self.now.ended) (λ found. Begins found self.now.held self.now.ended) }
    {
        match end_from(self.pending(), seen) {
            Some(n) => {
                if n > MAX_LINE {
                    return Some(LineSearch::Long);
                }
                Some(LineSearch::Whole(n))
            }
            None => {
                if self.pending().len() > MAX_LINE {
                    return Some(LineSearch::Long);
                }
                if self.ended {
                    return Some(LineSearch::Last);
                }
                None
            }
        }
    }

    // Reads once.
    fn fill<S: Source>(&mut self, source: &mut S) -> Fill
        ensures filled { (got : List ℕ) × Filled (S.left source.old) (S.left source.new) self.old self.new result got }
        ensures faults { S.faults source.new ≡ counted (S.faults source.old) (is_fill_failed result) }
    {
        self.close_up();
        if self.bytes.reserve(PIECE).is_err() {
            return Fill::NoMemory;
        }
        let mut piece = [0; PIECE];
        match source.read(&mut piece) {
            Ok(n) => {
                if n == 0 {
                    self.ended = true;
                    return Fill::Ended;
                }
                put(&mut self.bytes, &piece[..n]);
                Fill::More
            }
            Err(Failed) => Fill::Failed,
        }
    }

    // Drops the bytes that were given, once they are no fewer than those held.
    fn close_up(&mut self)
        ensures { self.new ≡ self.old }
    {
        if 0 < self.start && self.bytes.len() - self.start <= self.start {
            drop_front(&mut self.bytes, self.start);
            self.start = 0;
        }
    }

    // The bytes held.
    fn pending(&self) -> &[u8]
        ensures { result.now ≡ self.now.held }
    {
        &self.bytes[self.start..]
    }

    // Gives the first `len` bytes held as a line, and takes `taken` bytes off. For want of memory nothing is changed.
    fn give(&mut self, len: usize, taken: usize) -> NextLine
        requires { (len ≤ taken) × (taken ≤ length self.old.held) }
        ensures copied { Copied (take len self.old.held) result }
        ensures held { self.new.held ≡ (if is_line result then drop taken self.old.held else self.old.held) }
        ensures ended { self.new.ended ≡ self.old.ended }
        ensures number { self.new.number ≡ counted self.old.number (is_line result) }
    {
        let next = copy(self.alloc, &self.pending()[..len]);
        match &next {
            NextLine::Line(_) => self.take_off(taken),
            NextLine::NotText => self.take_off(taken),
            _ => {}
        }
        next
    }

    // Takes so many bytes off, as a line.
    fn take_off(&mut self, taken: usize)
        requires { taken ≤ length self.old.held }
        ensures held { self.new.held ≡ drop taken self.old.held }
        ensures ended { self.new.ended ≡ self.old.ended }
        ensures number { self.new.number ≡ counted self.old.number true }
    {
        self.start += taken;
        self.count();
    }

    // Gives all that is held, or tells the end.
    fn give_last(&mut self) -> NextLine
        requires { (first_line self.old.held ≡ self.old.held) × (behind self.old.held ≡ []) × (length self.old.held ≤ MAX_LINE) }
        ensures gives { Gives result self.old.held self.new.held }
        ensures ended { self.new.ended ≡ self.old.ended }
        ensures number { self.new.number ≡ counted self.old.number (is_line result) }
        ensures failed { is_failed result ≡ false }
    {
        let len = self.pending().len();
        if len == 0 {
            return NextLine::End;
        }
        self.give(len, len)
    }

    // Gives the first `len` bytes held, and takes the LF behind them off too.
    fn give_first(&mut self, len: usize) -> NextLine
        requires { (len ≤ MAX_LINE) × EndsAt self.old.held (Some len) }
        ensures gives { Gives result self.old.held self.new.held }
        ensures ended { self.new.ended ≡ self.old.ended }
        ensures number { self.new.number ≡ counted self.old.number (is_line result) }
        ensures failed { is_failed result ≡ false }
        ensures whole { NeedsEnd result self.old.held → ⊥ }
    {
        self.give(len, len + 1)
    }

    // Counts a line.
    fn count(&mut self)
        ensures held { self.new.held ≡ self.old.held }
        ensures ended { self.new.ended ≡ self.old.ended }
        ensures number { self.new.number ≡ counted self.old.number true }
    {
        self.number = self.number.saturating_add(1);
    }

    // Counts a line that is refused.
    fn refuse(&mut self) -> NextLine
        ensures answer { result ≡ TooLong }
        ensures held { self.new.held ≡ self.old.held }
        ensures ended { self.new.ended ≡ self.old.ended }
        ensures number { self.new.number ≡ counted self.old.number true }
    {
        self.count();
        NextLine::TooLong
    }
}

// These bytes as a line.
fn copy(alloc: Global, bytes: &[u8]) -> NextLine
    ensures { Copied bytes.now result }
{
    match str::from_utf8(bytes) {
        Ok(text) => match Text::of(alloc, text) {
            Ok(line) => NextLine::Line(line),
            Err(NoMemory) => NextLine::NoMemory,
        },
        Err(_) => NextLine::NotText,
    }
}

// The place of the first LF, where the first `seen` bytes have none.
fn end_from(bytes: &[u8], seen: usize) -> Option<usize>
    requires { (seen ≤ length bytes.now) × (first_line (take seen bytes.now) ≡ take seen bytes.now) }
    ensures { EndsAt bytes.now result }
{
    match first_end(from(bytes, seen)) {
        Some(n) => Some(seen + n),
        None => None,
    }
}

// The bytes from a place on.
fn from(bytes: &[u8], place: usize) -> &[u8]
    requires { place ≤ length bytes.now }
    ensures { result.now ≡ drop place bytes.now }
{
    &bytes[place..]
}

// Adds bytes at the end, for which there is room.
fn put(bytes: &mut Vec<u8>, piece: &[u8])
    requires { vec_len bytes.old + length piece.now ≤ vec_capacity bytes.old }
    ensures { bytes.new.items ≡ bytes.old.items ++ piece.now }
{
    let _ = bytes.extend_from_slice(piece);
}

// Drops the first bytes of a vector, and moves the others to the front.
fn drop_front(bytes: &mut Vec<u8>, count: usize)
    requires { count ≤ vec_len bytes.old }
    ensures { bytes.new.items ≡ drop count bytes.old.items }
{
    let len = bytes.len();
    bytes.copy_within(count..len, 0);
    bytes.truncate(len - count);
}
