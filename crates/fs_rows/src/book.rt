//! The lines of all rows, and the rows in them.

use crate::bytes::Names;
use crate::row::Row;
use crate::words::cut;
use anyhow::{Context, Result, bail, ensure};
use std::alloc::Global;

/// A row's lines, by their numbers from 0 on, that of its name not among them.
#[derive(Drop)]
struct Place {
    name: String,
    first: usize,
    behind: usize,
    // The row from which it takes what is given.
    like: Option<usize>,
}

/// All lines, with the rows and the named bytes that they hold.
#[derive(Drop)]
pub struct Book {
    lines: Vec<String>,
    names: Names,
    places: Vec<Place>,
}

impl Book {
    /// No line.
    pub fn new(alloc: Global) -> Book {
        Book {
            lines: Vec::new(alloc),
            names: Names::new(alloc),
            places: Vec::new(alloc),
        }
    }

    /// How many rows there are.
    pub fn len(&self) -> usize {
        self.places.len()
    }

    /// The name of the row with this number, from 0 on.
    pub fn name(&self, number: usize) -> &str {
        match self.places.get(number) {
            Some(place) => place.name.as_str(),
            None => "",
        }
    }

    /// Takes the next line. An empty one, and one that begins with `#`, say nothing; `bytes NAME BYTES` gives bytes a name, and
    /// `more BYTES` adds to those of the last name;
    /// `row NAME` and `row NAME as OTHER` begin a row; any other is of the row before it.
    pub fn add(&mut self, alloc: Global, line: String) -> Result<()> {
        let at = self.lines.len();
        let (word, rest) = cut(line.as_str());
        match word {
            "row" => self.begin(alloc, rest)?,
            "bytes" => {
                let (name, bytes) = cut(rest);
                let bytes = self.names.bytes(alloc, bytes)?;
                self.names.add(alloc, name, bytes)?;
            }
            "more" => {
                let bytes = self.names.bytes(alloc, rest)?;
                self.names.add_more(&bytes)?;
            }
            _ => {
                if !is_empty(line.as_str()) {
                    self.extend(at)?;
                }
            }
        }
        self.lines.push(line)?;
        Ok(())
    }

    /// Begins a row.
    fn begin(&mut self, alloc: Global, text: &str) -> Result<()> {
        let (name, rest) = cut(text);
        ensure!(!name.is_empty(), "a row without a name");
        ensure!(self.find(name).is_none(), "a second row {name:?}");
        let like = if rest.is_empty() {
            None
        } else {
            Some(self.like(rest)?)
        };
        let first = self.lines.len().saturating_add(1);
        let name = String::from_str(alloc, name)?;
        self.places.push(Place {
            name,
            first,
            behind: first,
            like,
        })?;
        Ok(())
    }

    /// The row of `as OTHER`.
    fn like(&self, text: &str) -> Result<usize> {
        let (word, other) = cut(text);
        ensure!(word == "as", "{word:?} behind a row's name");
        match self.find(other) {
            Some(number) => Ok(number),
            None => bail!("no row {other:?} before this one"),
        }
    }

    /// The number of the row with this name.
    fn find(&self, name: &str) -> Option<usize> {
        for (number, place) in self.places.iter().enumerate() {
            if place.name.as_str() == name {
                return Some(number);
            }
        }
        None
    }

    /// Takes the line with this number into the last row.
    fn extend(&mut self, at: usize) -> Result<()> {
        match self.places.last_mut() {
            Some(place) => place.behind = at.saturating_add(1),
            None => bail!("no row before it"),
        }
        Ok(())
    }

    /// The row with this number, from 0 on.
    pub fn row(&self, alloc: Global, number: usize) -> Result<Row> {
        let mut row = Row::new(alloc)?;
        let Some(place) = self.places.get(number) else {
            bail!("no such row");
        };
        if let Some(like) = place.like {
            self.fill_given(like, &mut row)?;
        }
        for at in place.first..place.behind {
            self.fill(at, &mut row)?;
        }
        Ok(row)
    }

    /// Takes what is given in the row with this number, and what that row takes from another one.
    fn fill_given(&self, number: usize, row: &mut Row) -> Result<()> {
        let Some(place) = self.places.get(number) else {
            bail!("no such row");
        };
        ensure!(
            place.like.is_none(),
            "the row that is meant takes lines of a third one"
        );
        for at in place.first..place.behind {
            let line = self.line(at);
            if !is_empty(line) {
                let _ = row
                    .given(&self.names, line)
                    .context(format_args!("line {}", at.saturating_add(1)))?;
            }
        }
        row.wanted.text.clear();
        Ok(())
    }

    /// Takes the line with this number into a row.
    fn fill(&self, at: usize, row: &mut Row) -> Result<()> {
        let line = self.line(at);
        if is_empty(line) {
            return Ok(());
        }
        self.take(line, row)
            .context(format_args!("line {}", at.saturating_add(1)))
    }

    fn take(&self, line: &str, row: &mut Row) -> Result<()> {
        if row.given(&self.names, line)? {
            return Ok(());
        }
        row.wants(&self.names, line)
    }

    fn line(&self, at: usize) -> &str {
        match self.lines.get(at) {
            Some(line) => line.as_str(),
            None => "",
        }
    }
}

/// Whether a line says nothing.
fn is_empty(line: &str) -> bool {
    match line.as_bytes().first() {
        Some(byte) => *byte == b'#',
        None => true,
    }
}
