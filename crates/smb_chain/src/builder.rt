//! Several messages as one frame.

ghost use Rattle.std.specs.Prelude.{◌≡◌, ◌↔◌, ◌==◌, ◌+◌, ◌≤◌, ◌<◌, ◌^◌, ◌++◌, ◌∷◌, [], ℕ, List, Ok, length, map, drop, replicate, IsTrue, IfOk, OnOk, OnErr};
ghost use Rattle.std.specs.List.{All};
ghost use Rattle.smb_head.specs.Header.{IsRouted, FitsHeader, head_of, header};
ghost use Rattle.smb_head.specs.Stream.{Whole, first_of, frame};
ghost use Rattle.smb_chain.specs.Chain.{chain, padded, linked, message, part_for, parts_for};
ghost use Rattle.smb_chain.specs.Parts.{parts_of};

use smb_base::{Bytes, NoMemory};
use smb_head::{Head, MAX_FRAME, frame_start, write_head};
use std::alloc::Global;
use std::marker::Model;

/// A message that is to stand in a chain.
#[derive(Debug, Drop)]
pub struct Message {
    /// Its header, of which the chain sets the place of the next message.
    pub head: Head,
    /// Its body.
    pub body: Bytes,
}

/// Messages that are to be one frame. A contract sees the list of them.
#[derive(Drop)]
pub struct ChainBuilder {
    alloc: Global,
    messages: Vec<Message>,
    len: usize,
}

impl Model for ChainBuilder {
    ghost use Rattle.std.specs.Prelude.{List, ◌≡◌, ◌≤◌, length};
    ghost use Rattle.std.specs.List.{All};
    ghost use Rattle.smb_head.specs.declared.first.TheConstants.{MAX_FRAME};
    ghost use Rattle.smb_head.specs.Header.{IsRouted};
    ghost use Rattle.smb_chain.specs.declared.builder.Message.{Message};
    ghost use Rattle.smb_chain.specs.Chain.{chain};

    ghost Value = { List Message };

    ghost view = { λ b. b.messages.items };

    ghost invariant = { λ b. (b.len ≡ length (chain b.messages.items)) × (b.len ≤ MAX_FRAME) × All (λ m. IsRouted m.head) b.messages.items };
}

impl ChainBuilder {
    /// No message. It takes no memory.
    pub fn new(alloc: Global) -> ChainBuilder
        ensures { result ≡ [] }
    {
        ChainBuilder {
            alloc,
            messages: Vec::new(alloc),
            len: 0,
        }
    }

    /// How many bytes the chain has so far, the four in front of the frame not counted.
    pub fn len(&self) -> usize
        ensures value { result ≡ length (chain self.now) }
        ensures within { result ≤ MAX_FRAME }
    {
        self.len
    }

    /// Whether there is no message.
    pub fn is_empty(&self) -> bool
        ensures { result ≡ (length self.now == 0) }
    {
        self.messages.is_empty()
    }

    /// Whether a message with a body of so many bytes may be added: the whole then stays within [`MAX_FRAME`].
    pub fn has_room(&self, body: usize) -> bool
        ensures { IsTrue result ↔ (padded (length (chain self.now)) + (64 + body) ≤ MAX_FRAME) }
    {
        body <= MAX_FRAME && padded_len(self.len) + (64 + body) <= MAX_FRAME
    }

    /// Adds a message. The place of the next message in its header is set by the chain, whatever `head` says.
    ///
    /// # Errors
    ///
    /// Want of memory alone; then nothing is changed.
    pub fn add(&mut self, head: &Head, body: &[u8]) -> Result<(), NoMemory>
        requires routed { IsRouted head.now }

        // The chain with this message stays within the limit.
        requires room { padded (length (chain self.old)) + (64 + length body.now) ≤ MAX_FRAME }

        ensures ok { OnOk result (self.new ≡ self.old ++ message head.now body.now ∷ []) }
        ensures len { OnOk result (length (chain self.new) ≡ padded (length (chain self.old)) + (64 + length body.now)) }
        ensures err { OnErr result (self.new ≡ self.old) }

        // Its header is read again, whatever place of the next message it has and whatever follows.
        ensures read_again { (n : ℕ) (rest : List ℕ) → n < 2 ^ 32
            → head_of (header (linked head.now n) ++ rest) ≡ Ok (linked head.now n) }
    {
        fits(*head);
        let len = padded_len(self.len) + (64 + body.len());
        let body = Bytes::of(self.alloc, body)?;
        self.messages.push(Message { head: *head, body })?;
        self.len = len;
        Ok(())
    }

    /// The messages as one frame, with the four bytes in front of it. Without a message it is the frame of length 0.
    ///
    /// # Errors
    ///
    /// Want of memory alone.
    pub fn finish(self) -> Result<Bytes, NoMemory>
        ensures whole { IfOk result (λ b. b ≡ frame (chain self)) }

        // It is taken off a stream again, whatever follows it.
        ensures taken { IfOk result (λ b. (rest : List ℕ) → first_of (b ++ rest) ≡ Whole (chain self) rest) }

        // Without its first four bytes it is split into what was added, in order: each part is the header, with its place of the next
        // message, the body, and at most seven zero bytes.
        ensures split_again { IfOk result (λ b. 0 < length self
            → parts_of (drop 4 b) ≡ map (λ part. Ok part) (parts_for self)) }
    {
        let mut out = Vec::with_capacity(self.alloc, 4 + self.len)?;
        out.extend_from_slice(&frame_start(self.len))?;
        put_messages(&mut out, &self.messages)?;
        Ok(Bytes::of_vec(out))
    }
}

// Each field of a head fits its width.
fn fits(head: Head)
    ensures { FitsHeader head }
{
    let _ = head;
}

fn padded_len(len: usize) -> usize
    requires { len ≤ MAX_FRAME }
    ensures { result ≡ padded len }
{
    (len + 7) / 8 * 8
}

fn put_messages(out: &mut Vec<u8>, messages: &[Message]) -> Result<(), NoMemory>
    requires routed { All (λ m. IsRouted m.head) messages.now }
    requires small { length (chain messages.now) ≤ MAX_FRAME }
    ensures { OnOk result (out.new.items ≡ out.old.items ++ chain messages.now) }
{
    for (i, message) in messages.iter().enumerate() {
        put_part(out, message, i + 1 == messages.len())?;
    }
    Ok(())
}

fn put_part(out: &mut Vec<u8>, message: &Message, last: bool) -> Result<(), NoMemory>
    requires routed { IsRouted message.now.head }
    requires small { 64 + length message.now.body ≤ MAX_FRAME }
    ensures { OnOk result (out.new.items ≡ out.old.items ++ part_for message.now last) }
{
    if last {
        put_with(out, message, 0, 0)
    } else {
        let size = 64 + message.body.len();
        let next = padded_len(size);
        put_with(out, message, next as u32, next - size)
    }
}

fn put_with(out: &mut Vec<u8>, message: &Message, next: u32, zeros: usize) -> Result<(), NoMemory>
    requires routed { IsRouted message.now.head }
    requires few { zeros < 8 }
    ensures { OnOk result (out.new.items ≡ out.old.items
        ++ (header (linked message.now.head next) ++ (message.now.body ++ replicate zeros 0))) }
{
    let head = Head {
        next,
        ..message.head
    };
    write_head(out, &head)?;
    out.extend_from_slice(message.body.as_slice())?;
    out.extend_from_slice(&[0; 8][..zeros])?;
    Ok(())
}
