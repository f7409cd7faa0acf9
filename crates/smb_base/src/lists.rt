//! Lists of bytes, numbers and texts.

ghost use Rattle.std.specs.Prelude.{◌≡◌, ◌==◌, ◌++◌, ◌∷◌, [], IfOk, OnOk, OnErr, MatchOption, length};

use crate::names::NoMemory;
use crate::text::Text;
use std::alloc::Global;
use std::marker::Model;

/// Bytes. A contract sees the list of them.
#[derive(Debug, Drop)]
pub struct Bytes {
    held: Vec<u8>,
}

impl Model for Bytes {
    ghost use Rattle.std.specs.Prelude.{List, ℕ};

    ghost Value = { List ℕ };

    ghost view = { λ b. b.held.items };
}

impl Bytes {
    /// No byte. It takes no memory.
    pub fn new(alloc: Global) -> Bytes
        ensures { result ≡ [] }
    {
        Bytes {
            held: Vec::new(alloc),
        }
    }

    /// A copy of these bytes. It fails only for want of memory.
    pub fn of(alloc: Global, bytes: &[u8]) -> Result<Bytes, NoMemory>
        ensures { IfOk result (λ b. b ≡ bytes.now) }
    {
        Ok(Bytes {
            held: Vec::from_slice(alloc, bytes)?,
        })
    }

    /// These bytes as they are, without a copy.
    pub fn of_vec(held: Vec<u8>) -> Bytes
        ensures { result ≡ held.items }
    {
        Bytes { held }
    }

    /// The bytes as a vector, without a copy.
    pub fn into_vec(self) -> Vec<u8>
        ensures { result.items ≡ self }
    {
        self.held
    }

    /// Lends the bytes.
    pub fn as_slice(&self) -> &[u8]
        ensures { result.now ≡ self.now }
    {
        self.held.as_slice()
    }

    /// How many there are.
    pub fn len(&self) -> usize
        ensures { result ≡ length self.now }
    {
        self.held.len()
    }

    /// Whether there is none.
    pub fn is_empty(&self) -> bool
        ensures { result ≡ (length self.now == 0) }
    {
        self.held.is_empty()
    }

    /// Adds bytes at the end. For want of memory nothing is changed.
    pub fn extend(&mut self, bytes: &[u8]) -> Result<(), NoMemory>
        ensures ok { OnOk result (self.new ≡ self.old ++ bytes.now) }
        ensures err { OnErr result (self.new ≡ self.old) }
    {
        self.held.extend_from_slice(bytes)?;
        Ok(())
    }
}

/// Units of UTF-16. A contract sees the list of them.
#[derive(Debug, Drop)]
pub struct Units {
    held: Vec<u16>,
}

impl Model for Units {
    ghost use Rattle.std.specs.Prelude.{List, ℕ};

    ghost Value = { List ℕ };

    ghost view = { λ u. u.held.items };
}

impl Units {
    /// No unit. It takes no memory.
    pub fn new(alloc: Global) -> Units
        ensures { result ≡ [] }
    {
        Units {
            held: Vec::new(alloc),
        }
    }

    /// A copy of these units. It fails only for want of memory.
    pub fn of(alloc: Global, units: &[u16]) -> Result<Units, NoMemory>
        ensures { IfOk result (λ u. u ≡ units.now) }
    {
        Ok(Units {
            held: Vec::from_slice(alloc, units)?,
        })
    }

    /// Lends the units.
    pub fn as_slice(&self) -> &[u16]
        ensures { result.now ≡ self.now }
    {
        self.held.as_slice()
    }

    /// How many there are.
    pub fn len(&self) -> usize
        ensures { result ≡ length self.now }
    {
        self.held.len()
    }

    /// Whether there is none.
    pub fn is_empty(&self) -> bool
        ensures { result ≡ (length self.now == 0) }
    {
        self.held.is_empty()
    }

    /// Adds a unit at the end. For want of memory nothing is changed.
    pub fn push(&mut self, unit: u16) -> Result<(), NoMemory>
        ensures ok { OnOk result (self.new ≡ self.old ++ unit ∷ []) }
        ensures err { OnErr result (self.new ≡ self.old) }
    {
        self.held.push(unit)?;
        Ok(())
    }

    /// Adds units at the end. For want of memory nothing is changed.
    pub fn extend(&mut self, units: &[u16]) -> Result<(), NoMemory>
        ensures ok { OnOk result (self.new ≡ self.old ++ units.now) }
        ensures err { OnErr result (self.new ≡ self.old) }
    {
        self.held.extend_from_slice(units)?;
        Ok(())
    }
}

/// Numbers. A contract sees the list of them.
#[derive(Debug, Drop)]
pub struct U64List {
    held: Vec<u64>,
}

impl Model for U64List {
    ghost use Rattle.std.specs.Prelude.{List, ℕ};

    ghost Value = { List ℕ };

    ghost view = { λ l. l.held.items };
}

impl U64List {
    /// A copy of these numbers. It fails only for want of memory.
    pub fn of(alloc: Global, numbers: &[u64]) -> Result<U64List, NoMemory>
        ensures { IfOk result (λ l. l ≡ numbers.now) }
    {
        Ok(U64List {
            held: Vec::from_slice(alloc, numbers)?,
        })
    }

    /// Lends the numbers.
    pub fn as_slice(&self) -> &[u64]
        ensures { result.now ≡ self.now }
    {
        self.held.as_slice()
    }
}

/// Texts. A contract sees the list of them, each as its bytes.
#[derive(Debug, Drop)]
pub struct TextList {
    held: Vec<Text>,
}

impl Model for TextList {
    ghost use Rattle.std.specs.Prelude.{List, ℕ};

    ghost Value = { List (List ℕ) };

    ghost view = { λ l. l.held.items };
}

impl TextList {
    /// No text. It takes no memory.
    pub fn new(alloc: Global) -> TextList
        ensures { result ≡ [] }
    {
        TextList {
            held: Vec::new(alloc),
        }
    }

    /// A copy of these texts. It fails only for want of memory.
    pub fn of(alloc: Global, texts: &[Text]) -> Result<TextList, NoMemory>
        ensures { IfOk result (λ l. l ≡ texts.now) }
    {
        let mut held = Vec::with_capacity(alloc, texts.len())?;
        for text in texts {
            held.push(Text::of(alloc, text.as_str())?)?;
        }
        Ok(TextList { held })
    }

    /// Lends the texts.
    pub fn as_slice(&self) -> &[Text]
        ensures { result.now ≡ self.now }
    {
        self.held.as_slice()
    }

    /// How many there are.
    pub fn len(&self) -> usize
        ensures { result ≡ length self.now }
    {
        self.held.len()
    }

    /// Whether there is none.
    pub fn is_empty(&self) -> bool
        ensures { result ≡ (length self.now == 0) }
    {
        self.held.is_empty()
    }

    /// Adds a text at the end. For want of memory nothing is changed.
    pub fn push(&mut self, text: Text) -> Result<(), NoMemory>
        ensures ok { OnOk result (self.new ≡ self.old ++ text ∷ []) }
        ensures err { OnErr result (self.new ≡ self.old) }
    {
        self.held.push(text)?;
        Ok(())
    }

    /// Takes the last text off.
    pub fn pop(&mut self) -> Option<Text>
        ensures { MatchOption result ((self.old ≡ []) × (self.new ≡ [])) (λ t. self.old ≡ self.new ++ t ∷ []) }
    {
        self.held.pop()
    }
}
