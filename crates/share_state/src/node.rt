//! Files and directories.

ghost use Rattle.std.specs.Prelude.{◌≡◌, ◌==◌, ◌≤◌, ◌+◌, ◌-◌, ◌++◌, ◌∷◌, [], OnOk, OnErr, take, drop, length, map, replicate};
ghost use Rattle.std.specs.List.{position};
ghost use Rattle.share_state.specs.Close.{kept_nodes};
ghost use Rattle.share_state.specs.Data.{bytes_of, used, written, resized, with_bytes};
ghost use Rattle.share_state.specs.Marks.{with_read_only};
ghost use Rattle.share_state.specs.State.{emptied, is_directory, is_read_only, size_of};

use crate::entry::{Entry, is_named};
use crate::opens::{Open, has_open_of_node};
use smb_base::{Bytes, NoMemory};
use std::alloc::Global;
use std::marker::Model;
use std::mem;

/// A file or a directory, whatever its names are.
#[derive(Drop)]
pub struct Node {
    /// Its number, which no other node ever has. The root is 1.
    pub number: u64,
    /// It is a directory.
    pub dir: bool,
    /// The bytes of a file; none for a directory.
    pub bytes: Bytes,
    /// It has the read-only attribute (MS-FSCC 2.6).
    pub read_only: bool,
}

/// Nodes. A contract sees the list of them.
#[derive(Drop)]
pub struct NodeList {
    held: Vec<Node>,
}

impl Model for NodeList {
    ghost use Rattle.std.specs.Prelude.{List};
    ghost use Rattle.share_state.specs.declared.node.Node.{Node};

    ghost Value = { List Node };

    ghost view = { λ l. l.held.items };
}

impl NodeList {
    /// No node. It takes no memory.
    pub fn new(alloc: Global) -> NodeList
        ensures { result ≡ [] }
    {
        NodeList {
            held: Vec::new(alloc),
        }
    }

    /// Lends the nodes.
    pub fn as_slice(&self) -> &[Node]
        ensures { result.now ≡ self.now }
    {
        self.held.as_slice()
    }

    /// Adds one at the end. For want of memory nothing is changed.
    pub fn push(&mut self, item: Node) -> Result<(), NoMemory>
        ensures ok { OnOk result (self.new ≡ self.old ++ item ∷ []) }
        ensures err { OnErr result (self.new ≡ self.old) }
    {
        self.held.push(item)?;
        Ok(())
    }

    /// Takes the last one off.
    pub fn drop_last(&mut self)
        ensures { self.new ≡ take (length self.old - 1) self.old }
    {
        self.held.pop();
    }

    /// Makes the file with this number empty.
    pub fn empty(&mut self, alloc: Global, number: u64)
        ensures { self.new ≡ map (emptied number) self.old }
    {
        empty_in(alloc, &mut self.held, number);
    }

    /// Writes these bytes into the file with this number, from an offset on; a gap before them is filled with zeros. It copies what is
    /// written and leaves the rest of the file where it is. For want of memory nothing is changed.
    pub fn write(
        &mut self,
        alloc: Global,
        number: u64,
        offset: u64,
        others: &[u8],
    ) -> Result<(), NoMemory>
        ensures ok { OnOk result (self.new ≡ with_bytes number (written offset others.now) self.old) }
        ensures err { OnErr result (self.new ≡ self.old) }
    {
        match place_of(&self.held, number) {
            Some(place) => {
                write_one(alloc, &mut self.held[place], offset, others)?;
                Ok(())
            }
            None => Ok(()),
        }
    }

    /// Cuts the file with this number off at a size, or fills it up with zeros. For want of memory nothing is changed.
    pub fn resize(&mut self, alloc: Global, number: u64, size: u64) -> Result<(), NoMemory>
        ensures ok { OnOk result (self.new ≡ with_bytes number (resized size) self.old) }
        ensures err { OnErr result (self.new ≡ self.old) }
    {
        match place_of(&self.held, number) {
            Some(place) => {
                resize_one(alloc, &mut self.held[place], size)?;
                Ok(())
            }
            None => Ok(()),
        }
    }

    /// Makes the node with this number read-only or not.
    pub fn set_read_only(&mut self, number: u64, on: bool)
        ensures { self.new ≡ map (with_read_only number on) self.old }
    {
        set_read_only_in(&mut self.held, number, on);
    }

    /// Keeps the root, and the nodes that some entry stands for or some open is of.
    pub fn keep(&mut self, opens: &[Open], entries: &[Entry])
        ensures { self.new ≡ kept_nodes opens.now entries.now self.old }
    {
        keep_held(&mut self.held, opens, entries);
    }
}

/// The node with this number is a directory.
pub fn is_directory(nodes: &[Node], number: u64) -> bool
    ensures { result ≡ is_directory nodes.now number }
{
    nodes.iter().any(|node| node.number == number && node.dir)
}

/// The node with this number is read-only.
pub fn is_read_only(nodes: &[Node], number: u64) -> bool
    ensures { result ≡ is_read_only nodes.now number }
{
    nodes
        .iter()
        .any(|node| node.number == number && node.read_only)
}

/// The size of the node with this number.
pub fn size_of(nodes: &[Node], number: u64) -> u64
    ensures { result ≡ size_of nodes.now number }
{
    for node in nodes {
        if node.number == number {
            return node.bytes.len() as u64;
        }
    }
    0
}

/// The bytes of the node with this number.
pub fn bytes_of(nodes: &[Node], number: u64) -> &[u8]
    ensures { result.now ≡ bytes_of nodes.now number }
{
    for node in nodes {
        if node.number == number {
            return node.bytes.as_slice();
        }
    }
    &[]
}

/// What of a room the nodes leave free, in bytes: nothing where they have more.
pub fn free_room(nodes: &[Node], room: u64) -> u64
    ensures { result ≡ room - used nodes.now }
{
    let mut free = room;
    for node in nodes {
        free = free.saturating_sub(node.bytes.len() as u64);
    }
    free
}

// Where the node with this number stands.
fn place_of(nodes: &[Node], number: u64) -> Option<usize>
    ensures { result ≡ position (λ x. x.number == number) nodes.now }
{
    nodes.iter().position(|node| node.number == number)
}

// Writes bytes from an offset on, over what is there and behind it. For want of memory nothing is changed.
#[tactic(auto, using(crate::proofs::Written::put_over))]
fn write_over(held: &mut Vec<u8>, offset: u64, others: &[u8]) -> Result<(), NoMemory>
    ensures ok { OnOk result (held.new.items ≡ written offset others.now held.old.items) }
    ensures err { OnErr result (held.new.items ≡ held.old.items) }
{
    if others.is_empty() {
        return Ok(());
    }
    let start = offset as usize;
    let end = start.checked_add(others.len()).ok_or(NoMemory)?;
    fill_to(held, end)?;
    put_in(held, start, others);
    Ok(())
}

// Fills bytes up with zeros to a size, where they are fewer. For want of memory nothing is changed.
fn fill_to(held: &mut Vec<u8>, size: usize) -> Result<(), NoMemory>
    ensures ok { OnOk result (held.new.items ≡ held.old.items ++ replicate (size - length held.old.items) 0) }
    ensures err { OnErr result (held.new.items ≡ held.old.items) }
{
    let size = size.max(held.len());
    held.resize(size, 0)?;
    Ok(())
}

// Copies bytes over those that stand in a vector from an offset on.
fn put_in(held: &mut Vec<u8>, start: usize, others: &[u8])
    requires { start + length others.now ≤ length held.old.items }
    ensures { held.new.items ≡ take start held.old.items ++ (others.now ++ drop (start + length others.now) held.old.items) }
{
    put_at(held, start, others);
}

// Copies bytes over those that stand from an offset on.
fn put_at(held: &mut [u8], start: usize, others: &[u8])
    requires { start + length others.now ≤ length held.old }
    ensures len { length held.new ≡ length held.old }
    ensures after { held.new ≡ take start held.old ++ (others.now ++ drop (start + length others.now) held.old) }
{
    held[start..start + others.len()].copy_from_slice(others);
}

// Writes bytes into this node. For want of memory nothing is changed.
fn write_one(alloc: Global, node: &mut Node, offset: u64, others: &[u8]) -> Result<(), NoMemory>
    ensures ok { OnOk result (node.new ≡ record node.old { bytes = written offset others.now node.old.bytes }) }
    ensures err { OnErr result (node.new ≡ node.old) }
{
    let mut held = mem::replace(&mut node.bytes, Bytes::new(alloc)).into_vec();
    let outcome = write_over(&mut held, offset, others);
    node.bytes = Bytes::of_vec(held);
    outcome
}

// Gives this node a size. For want of memory nothing is changed.
fn resize_one(alloc: Global, node: &mut Node, size: u64) -> Result<(), NoMemory>
    ensures ok { OnOk result (node.new ≡ record node.old { bytes = resized size node.old.bytes }) }
    ensures err { OnErr result (node.new ≡ node.old) }
{
    let mut held = mem::replace(&mut node.bytes, Bytes::new(alloc)).into_vec();
    let outcome = resize_held(&mut held, size);
    node.bytes = Bytes::of_vec(held);
    outcome
}

// Cuts bytes off at a size, or fills them up with zeros. For want of memory nothing is changed.
fn resize_held(held: &mut Vec<u8>, size: u64) -> Result<(), NoMemory>
    ensures ok { OnOk result (held.new.items ≡ resized size held.old.items) }
    ensures err { OnErr result (held.new.items ≡ held.old.items) }
{
    held.resize(size as usize, 0)?;
    Ok(())
}

// Makes the node with this number read-only or not.
#[tactic(auto, using(std::proofs::lemmas::List::Edits::map_over_more))]
fn set_read_only_in(nodes: &mut [Node], number: u64, on: bool)
    ensures { nodes.new ≡ map (with_read_only number on) nodes.old }
{
    for node in nodes.iter_mut() {
        set_read_only_one(node, number, on);
    }
}

// Makes this node read-only or not where it has the number.
fn set_read_only_one(node: &mut Node, number: u64, on: bool)
    ensures { node.new ≡ with_read_only number on node.old }
{
    if node.number == number {
        node.read_only = on;
    }
}

// Keeps the root, and the nodes that some entry stands for or some open is of.
fn keep_held(nodes: &mut Vec<Node>, opens: &[Open], entries: &[Entry])
    ensures { nodes.new.items ≡ kept_nodes opens.now entries.now nodes.old.items }
{
    nodes.retain(|node| {
        node.number == 1 || is_named(entries, node.number) || has_open_of_node(opens, node.number)
    });
}

// Makes the file with this number empty.
#[tactic(auto, using(std::proofs::lemmas::List::Edits::map_over_more))]
fn empty_in(alloc: Global, nodes: &mut [Node], number: u64)
    ensures { nodes.new ≡ map (emptied number) nodes.old }
{
    for node in nodes.iter_mut() {
        empty_one(alloc, node, number);
    }
}

// Makes this node empty where it has the number.
fn empty_one(alloc: Global, node: &mut Node, number: u64)
    ensures { node.new ≡ emptied number node.old }
{
    if node.number == number {
        node.bytes = Bytes::new(alloc);
    }
}
