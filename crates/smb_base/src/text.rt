//! Text in UTF-8.

ghost use Rattle.std.specs.Prelude.{◌≡◌, ◌==◌, ◌++◌, [], IfOk, OnOk, OnErr, length, string_bytes};

use crate::names::NoMemory;
use std::alloc::Global;
use std::marker::Model;

/// A text in UTF-8. A contract sees the list of its bytes.
#[derive(Debug, Drop)]
pub struct Text {
    held: String,
}

impl Model for Text {
    ghost use Rattle.std.specs.Prelude.{List, ℕ, string_bytes};

    ghost Value = { List ℕ };

    ghost view = { λ t. string_bytes t.held };
}

impl Text {
    /// The empty text, to which more is added. It takes no memory.
    pub fn new(alloc: Global) -> Text
        ensures { result ≡ [] }
    {
        Text {
            held: String::new(alloc),
        }
    }

    /// A copy of this text. It fails only for want of memory.
    pub fn of(alloc: Global, text: &str) -> Result<Text, NoMemory>
        ensures { IfOk result (λ t. t ≡ text.now) }
    {
        Ok(Text {
            held: String::from_str(alloc, text)?,
        })
    }

    /// This string as it is, without a copy.
    pub fn of_string(held: String) -> Text
        ensures { result ≡ string_bytes held }
    {
        Text { held }
    }

    /// Lends the text.
    pub fn as_str(&self) -> &str
        ensures { result.now ≡ self.now }
    {
        self.held.as_str()
    }

    /// How many bytes it has.
    pub fn len(&self) -> usize
        ensures { result ≡ length self.now }
    {
        self.held.len()
    }

    /// Whether it has no byte.
    pub fn is_empty(&self) -> bool
        ensures { result ≡ (length self.now == 0) }
    {
        self.held.is_empty()
    }

    /// Adds a text at the end. For want of memory nothing is changed.
    pub fn push_str(&mut self, text: &str) -> Result<(), NoMemory>
        ensures ok { OnOk result (self.new ≡ self.old ++ text.now) }
        ensures err { OnErr result (self.new ≡ self.old) }
    {
        self.held.push_str(text)?;
        Ok(())
    }
}
