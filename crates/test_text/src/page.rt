//! The lines that are printed of a vector.

ghost use Rattle.std.specs.Prelude.{◌≡◌, ◌++◌, [], IfOk, OnOk, codes, string_bytes, take};
ghost use Rattle.test_text.specs.Page.{again_line, body_fault_name, fault_line, hex_text, item_line, item_lines, named};
ghost use Rattle.std.specs.Fmt.{decimal};

use smb_base::NoMemory;
use smb_field::BodyFault;
use std::alloc::Global;
use std::marker::Model;

/// A field under its name in MS-SMB2 or MS-FSCC.
#[derive(Clone, Copy)]
pub enum Item<'a> {
    /// A number, printed in decimal.
    Number(&'static str, u64),
    /// Bytes, printed in hex; `-` where there is none.
    Bytes(&'static str, &'a [u8]),
}

/// The lines so far. A contract sees the list of their bytes.
#[derive(Drop)]
pub struct Page {
    alloc: Global,
    text: String,
}

impl Model for Page {
    ghost use Rattle.std.specs.Prelude.{List, ℕ, string_bytes};

    ghost Value = { List ℕ };

    ghost view = { λ p. string_bytes p.text };
}

impl Page {
    /// No line. It takes no memory.
    pub fn new(alloc: Global) -> Page
        ensures { result ≡ [] }
    {
        Page {
            alloc,
            text: String::new(alloc),
        }
    }

    /// What the lines are made from.
    pub fn alloc(&self) -> Global {
        self.alloc
    }

    /// Lends the lines.
    pub fn as_str(&self) -> &str
        ensures { result.now ≡ self.now }
    {
        self.text.as_str()
    }

    /// Adds the line of a kind. It fails only for want of memory.
    pub fn kind(&mut self, name: &str) -> Result<(), NoMemory>
        ensures { OnOk result (self.new ≡ self.old ++ (name.now ++ codes "\n")) }
    {
        let line = format!(in self.alloc; "{name}\n")?;
        self.text.push_str(line.as_str())?;
        Ok(())
    }

    /// Adds a line for each field. It fails only for want of memory.
    pub fn fields(&mut self, items: &[Item<'_>]) -> Result<(), NoMemory>
        ensures { OnOk result (self.new ≡ self.old ++ item_lines items.now) }
    {
        put_items(self.alloc, &mut self.text, items)
    }

    /// Adds the line of a fault. It fails only for want of memory.
    #[tactic(auto, unfolding(crate::specs::Page::fault_line))]
    pub fn fault(&mut self, name: &str) -> Result<(), NoMemory>
        ensures { OnOk result (self.new ≡ self.old ++ fault_line name.now) }
    {
        let line = format!(in self.alloc; "  fault {name}\n")?;
        self.text.push_str(line.as_str())?;
        Ok(())
    }

    /// Adds a line where what was written is what was read. It fails only for want of memory.
    #[tactic(auto, unfolding(crate::specs::Page::again_line))]
    pub fn again(&mut self, written: &[u8], read: &[u8]) -> Result<(), NoMemory>
        ensures { OnOk result (self.new ≡ self.old ++ again_line written.now read.now) }
    {
        if written == read {
            self.text.push_str("  spelled again\n")?;
        }
        Ok(())
    }
}

// Adds a line for each field.
#[tactic(auto, unfolding(crate::specs::Page::item_lines))]
fn put_items(alloc: Global, out: &mut String, items: &[Item<'_>]) -> Result<(), NoMemory>
    ensures { OnOk result (string_bytes out.new ≡ string_bytes out.old ++ item_lines items.now) }
{
    for item in items {
        put_item(alloc, out, item)?;
    }
    Ok(())
}

// Adds the line of a field.
fn put_item(alloc: Global, out: &mut String, item: &Item<'_>) -> Result<(), NoMemory>
    ensures { OnOk result (string_bytes out.new ≡ string_bytes out.old ++ item_line item.now) }
{
    let line = match *item {
        Item::Number(name, value) => number_line(alloc, name, value)?,
        Item::Bytes(name, value) => bytes_line(alloc, name, value)?,
    };
    out.push_str(line.as_str())?;
    Ok(())
}

fn number_line(alloc: Global, name: &'static str, value: u64) -> Result<String, NoMemory>
    ensures { IfOk result (λ line. string_bytes line ≡ named name.now (decimal value)) }
{
    Ok(format!(in alloc; "  {name} {value}\n")?)
}

fn bytes_line(alloc: Global, name: &'static str, value: &[u8]) -> Result<String, NoMemory>
    ensures { IfOk result (λ line. string_bytes line ≡ named name.now (hex_text value.now)) }
{
    let digits = hex_text(alloc, value)?;
    Ok(format!(in alloc; "  {name} {digits}\n")?)
}

// Bytes in hex, and `-` where there is none.
fn hex_text(alloc: Global, bytes: &[u8]) -> Result<String, NoMemory>
    ensures { IfOk result (λ text. string_bytes text ≡ hex_text bytes.now) }
{
    if bytes.is_empty() {
        return Ok(String::from_str(alloc, "-")?);
    }
    Ok(hex::encode(alloc, bytes)?)
}

/// Adds the line of what a reader of a body refused. It fails only for want of memory.
#[tactic(auto, unfolding(crate::specs::Page::body_fault_name))]
pub fn body_fault(page: &mut Page, fault: BodyFault) -> Result<(), NoMemory>
    ensures { OnOk result (page.new ≡ page.old ++ fault_line (body_fault_name fault)) }
{
    page.fault(match fault {
        BodyFault::Short => "Short",
        BodyFault::Size => "Size",
        BodyFault::Value => "Value",
        BodyFault::Offset => "Offset",
    })
}

/// The 64 bytes that a message begins with, or all of them where there are fewer. It fails only for want of memory.
pub fn header(alloc: Global, part: &[u8]) -> Result<Vec<u8>, NoMemory>
    ensures { IfOk result (λ bytes. bytes.items ≡ take 64 part.now) }
{
    Ok(Vec::from_slice(alloc, front(part))?)
}

fn front(part: &[u8]) -> &[u8]
    ensures { result.now ≡ take 64 part.now }
{
    if part.len() < 64 {
        return part;
    }
    &part[..64]
}
