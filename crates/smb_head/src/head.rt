//! The header of a message.

ghost use Rattle.std.specs.Prelude.{◌≡◌, ◌↔◌, ◌≤◌, ◌++◌, ℕ, List, length, IfOk, OnOk, OnErr, IsTrue};
ghost use Rattle.smb_head.specs.Header.{FitsHeader, IsHeader, IsRouted, head_of, head_at, route_at, header, is_reply, is_reply_to, is_interim};
ghost use Rattle.smb_head.specs.declared.head.Head.{Head};

use bitflags::Flags;
use smb_base::{Mid, NoMemory, Status};
use smb_le::{HeadFlags, get_u16, get_u32, get_u64, put_u16, put_u32, put_u64};
use thiserror::Error;

/// The four bytes FE 53 4D 42 that begin every message, as a number.
pub const PROTOCOL: u32 = 0x424D_53FE;

/// Where a message belongs (MS-SMB2 2.2.1.1 and 2.2.1.2). It is `Async` exactly where the header has the flag ASYNC.
#[derive(Clone, Copy, Debug, PartialEq, Eq)]
pub enum Route {
    /// The tree that the message is for (TreeId).
    Sync(u32),
    /// The id of a request that the server works on out of turn (AsyncId).
    Async(u64),
}

/// The header of a message (MS-SMB2 2.2.1). The signature and the reserved bytes are no part of it.
#[derive(Clone, Copy, Debug, PartialEq, Eq)]
pub struct Head {
    /// How many credits the request costs (CreditCharge).
    pub charge: u16,
    /// The status of a reply; in a request 0.
    pub status: Status,
    /// What is asked, or answered.
    pub command: u16,
    /// The credits that a request asks for or a reply grants.
    pub credits: u16,
    /// The flags.
    pub flags: HeadFlags,
    /// How many bytes after this header's first byte the next message of a chain begins; 0 in the last (NextCommand).
    pub next: u32,
    /// The id of the message.
    pub mid: Mid,
    /// Where the message belongs.
    pub route: Route,
    /// The session that it is sent in (SessionId).
    pub session: u64,
}

impl Head {
    /// Whether the route is `Async` exactly where the flag ASYNC is set, as `write_head` needs it.
    pub fn is_routed(&self) -> bool
        ensures { IsTrue result ↔ IsRouted self.now }
    {
        match self.route {
            Route::Sync(_) => !self.flags.contains(HeadFlags::ASYNC),
            Route::Async(_) => self.flags.contains(HeadFlags::ASYNC),
        }
    }

    /// Whether a server sent the message: it has the flag of replies (MS-SMB2 2.2.1.2).
    pub fn is_reply(&self) -> bool
        ensures { result ≡ is_reply self.now }
    {
        self.flags.contains(HeadFlags::REPLY)
    }

    /// Whether it is a reply to a request of this command.
    pub fn is_reply_to(&self, command: u16) -> bool
        ensures { result ≡ is_reply_to command self.now }
    {
        self.command == command && self.is_reply()
    }

    /// Whether it is an interim reply: STATUS_PENDING with the flag ASYNC (MS-SMB2 3.3.4.2). The final one is still to come.
    pub fn is_interim(&self) -> bool
        ensures { result ≡ is_interim self.now }
    {
        self.status == Status::PENDING && self.flags.0 & HeadFlags::ASYNC.0 != 0
    }
}

/// Why bytes have no header: the first of these that stands.
#[derive(Clone, Copy, Debug, PartialEq, Eq, Error)]
pub enum HeadFault {
    /// There are fewer than 64 bytes.
    #[error("fewer bytes than a header has")]
    Short,
    /// The bytes do not begin with FE 53 4D 42.
    #[error("not a message of SMB 2")]
    Magic,
    /// The size that the header gives itself is not 64.
    #[error("a header of another size")]
    Size,
}

/// Reads the header that `part` begins with. The reserved bytes and the signature may be any. It takes no memory.
///
/// # Errors
///
/// `Short`, `Magic` and `Size`, the first of them that stands (see [`HeadFault`]).
#[tactic(auto, unfolding(crate::specs::Header::head_of))]
pub fn read_head(part: &[u8]) -> Result<Head, HeadFault>
    // The whole answer as a function of the bytes.
    ensures exact { result ≡ head_of part.now }

    // It is the header that stands there, and any other value is not.
    ensures found { IfOk result (λ head. IsHeader head part.now) }
    ensures only { (head : Head) → IsHeader head part.now → result ≡ Ok head }
{
    if part.len() < 64 {
        return Err(HeadFault::Short);
    }
    if get_u32(part, 0) != PROTOCOL {
        return Err(HeadFault::Magic);
    }
    if get_u16(part, 4) != 64 {
        return Err(HeadFault::Size);
    }
    Ok(fields_of(part))
}

// The fields, once it is known that they are there.
#[tactic(auto, unfolding(crate::specs::Header::head_at))]
fn fields_of(part: &[u8]) -> Head
    requires { 64 ≤ length part.now }
    ensures { result ≡ head_at part.now }
{
    let flags = HeadFlags(get_u32(part, 16));
    Head {
        charge: get_u16(part, 6),
        status: Status(get_u32(part, 8)),
        command: get_u16(part, 12),
        credits: get_u16(part, 14),
        flags,
        next: get_u32(part, 20),
        mid: Mid(get_u64(part, 24)),
        route: route_of(part, flags),
        session: get_u64(part, 40),
    }
}

fn route_of(part: &[u8], flags: HeadFlags) -> Route
    requires { 64 ≤ length part.now }
    ensures { result ≡ route_at flags.0 part.now }
{
    if flags.contains(HeadFlags::ASYNC) {
        Route::Async(get_u64(part, 32))
    } else {
        Route::Sync(get_u32(part, 36))
    }
}

/// Adds the 64 bytes of a header to `out`, the reserved bytes and the signature as zero.
///
/// # Errors
///
/// Want of memory alone; then `out` holds what it held.
pub fn write_head(out: &mut Vec<u8>, head: &Head) -> Result<(), NoMemory>
    requires { IsRouted head.now }
    ensures ok { OnOk result (out.new.items ≡ out.old.items ++ header head.now) }
    ensures err { OnErr result (out.new.items ≡ out.old.items) }

    // What is written is read again as this head, whatever follows it.
    ensures read_again { (rest : List ℕ) → head_of (header head.now ++ rest) ≡ Ok head.now }
{
    out.extend_from_slice(&header_bytes(*head))?;
    Ok(())
}

#[tactic(auto, unfolding(crate::specs::Header::header, smb_le::specs::Numbers::overwritten, smb_le::specs::Numbers::bytes_of))]
fn header_bytes(head: Head) -> [u8; 64]
    ensures value { result ≡ header head }
    ensures fits { FitsHeader head }
{
    let mut bytes = [0u8; 64];
    put_u32(&mut bytes, 0, PROTOCOL);
    put_u16(&mut bytes, 4, 64);
    put_u16(&mut bytes, 6, head.charge);
    put_u32(&mut bytes, 8, head.status.0);
    put_u16(&mut bytes, 12, head.command);
    put_u16(&mut bytes, 14, head.credits);
    put_u32(&mut bytes, 16, head.flags.0);
    put_u32(&mut bytes, 20, head.next);
    put_u64(&mut bytes, 24, head.mid.0);
    match head.route {
        Route::Sync(tree) => put_u32(&mut bytes, 36, tree),
        Route::Async(id) => put_u64(&mut bytes, 32, id),
    }
    put_u64(&mut bytes, 40, head.session);
    bytes
}
