//! Requests of calls and of the connection.

ghost use Rattle.std.specs.Prelude.{◌≡◌, ◌≤◌, ◌^◌, ◌<◌, ◌%◌, ◌*◌, ◌++◌, ◌∷◌, [], false, ℕ, IfOk, OnOk, OnErr, length, slice_index};
ghost use Rattle.smb_field.specs.TwoParts.{WritesBodyOfTwo};
ghost use Rattle.smb_le.specs.Numbers.{bytes_of};
ghost use Rattle.smb_mount.specs.Requests.{charge_of, unit_bytes, tree_disconnect, logoff};
ghost use Rattle.smb_link.specs.Program.{Query, Close, Own};
ghost use Rattle.fs_client.specs.Spelled.{request_for, create_fields, query_fields, close_fields, body_for, every_bit, fid_sent};
ghost use Rattle.fs_core.specs.Asks.{only, open_wish};
ghost use Rattle.fs_core.specs.Written.{IsPath, IsWide};

use smb_base::{Bytes, Fid, NoMemory, Units};
use smb_body_a::{Empty, write_empty};
use smb_body_b::{CloseRequest, CreateRequest, write_close_request, write_create_request};
use smb_body_c::{QueryInfoRequest, write_query_info_request};
use smb_head::Request;
use smb_head::command::{CLOSE, CREATE, LOGOFF, QUERY_INFO, TREE_DISCONNECT};
use smb_le::ServerCaps;
use smb_mount::Facts;
use std::alloc::Global;
use std::marker::Model;

/// The most units of a path that a CREATE can name (MS-SMB2 2.2.13).
const MOST_UNITS: usize = 32_767;

/// FILE_READ_ATTRIBUTES and SYNCHRONIZE (MS-SMB2 2.2.13.1.1).
const ATTRIBUTES: u32 = 0x0010_0080;

/// FILE_OPEN: what is there is opened (MS-SMB2 2.2.13).
const OPEN: u32 = 1;

/// Others may read, write and delete meanwhile (MS-SMB2 2.2.13).
const SHARE_ALL: u32 = 7;

/// The attribute NORMAL (MS-FSCC 2.6).
const NORMAL: u32 = 0x80;

/// Information of a file (MS-SMB2 2.2.37).
const FILE: u8 = 1;

/// FileAllInformation (MS-FSCC 2.4).
const ALL: u8 = 18;

/// The greatest answer that a QUERY_INFO asks for.
const OUTPUT: u32 = 1_024;

/// The file id of a request that is related to the CREATE before it in its frame: all bits (MS-SMB2 3.2.4.1.4).
pub(crate) const EVERY_BIT: Fid = Fid {
    persistent: u64::MAX,
    volatile: u64::MAX,
};

/// Requests that are sent as one frame. A contract sees the list of them.
#[derive(Drop)]
pub(crate) struct Requests {
    held: Vec<Request>,
}

impl Model for Requests {
    ghost use Rattle.std.specs.Prelude.{List};
    ghost use Rattle.smb_head.specs.declared.request.Request.{Request};

    ghost Value = { List Request };

    ghost view = { λ r. r.held.items };
}

impl Requests {
    /// None. It takes no memory.
    pub(crate) fn new(alloc: Global) -> Requests
        ensures { result ≡ [] }
    {
        Requests {
            held: Vec::new(alloc),
        }
    }

    /// Adds one at the end. For want of memory nothing is changed.
    pub(crate) fn push(&mut self, request: Request) -> Result<(), NoMemory>
        ensures ok { OnOk result (self.new ≡ self.old ++ request ∷ []) }
        ensures err { OnErr result (self.new ≡ self.old) }
    {
        self.held.push(request)?;
        Ok(())
    }

    /// Lends them.
    pub(crate) fn as_slice(&self) -> &[Request]
        ensures { result.now ≡ self.now }
    {
        self.held.as_slice()
    }
}

/// The CREATE of a stat: what is there is opened for reading its attributes. It fails only for want of memory, which is said too of a
/// path of more units than a CREATE can name: none of 4,095 bytes has as many.
pub(crate) fn open(alloc: Global, facts: &Facts, path: &Units) -> Result<Request, NoMemory>
    ensures value { IfOk result (λ r. r ≡ request_for facts.now (only every_bit) (false, open_wish path.now)) }
    ensures path { IfOk result (λ r. IsPath path.now) }
{
    if path.len() > MOST_UNITS {
        return Err(NoMemory);
    }
    Ok(Request {
        command: CREATE,
        charge: charge(facts.caps),
        related: false,
        tree: facts.tree,
        session: facts.session,
        body: open_body(alloc, path)?,
    })
}

// Its body.
fn open_body(alloc: Global, path: &Units) -> Result<Bytes, NoMemory>
    requires { length path.now ≤ 32767 }
    ensures value { IfOk result (λ body. body ≡ body_for (only every_bit) (open_wish path.now)) }
    ensures path { IfOk result (λ body. IsPath path.now) }
{
    fit(path.as_slice());
    let name = unit_bytes(alloc, path.as_slice())?;
    let mut body = Vec::new(alloc);
    put_open(&mut body, name.as_slice())?;
    Ok(Bytes::of_vec(body))
}

// Appends the body of a CREATE of this name.
fn put_open(body: &mut Vec<u8>, name: &[u8]) -> Result<(), NoMemory>
    requires short { length name.now < 2 ^ 16 }
    requires even { length name.now % 2 ≡ 0 }
    ensures { WritesBodyOfTwo 57 (create_fields 0x100080 1 0 name.now) name.now [] body.old.items body.new.items result }
{
    write_create_request(
        body,
        &CreateRequest {
            oplock_level: 0,
            access: ATTRIBUTES,
            attributes: NORMAL,
            share: SHARE_ALL,
            disposition: OPEN,
            options: 0,
            name,
            contexts: &[],
        },
    )
}

// Units of UTF-16 fit their width.
fn fit(units: &[u16])
    ensures { (k : ℕ) → slice_index units.now k < 2 ^ 16 }
{
    let _ = units;
}

// Units of UTF-16 as bytes, the low byte of each first.
#[tactic(auto, unfolding(smb_mount::specs::Requests::unit_bytes, smb_le::specs::Numbers::bytes_of))]
fn unit_bytes(alloc: Global, units: &[u16]) -> Result<Vec<u8>, NoMemory>
    ensures value { IfOk result (λ bytes. bytes.items ≡ unit_bytes units.now) }
    ensures double { IfOk result (λ bytes. length bytes.items ≡ 2 * length units.now) }
{
    let mut bytes = Vec::with_capacity(alloc, 2 * units.len())?;
    for unit in units {
        bytes.extend_from_slice(&unit.to_le_bytes())?;
    }
    Ok(bytes)
}

/// The QUERY_INFO of a stat: all that is known of an open file. Where it is related to the CREATE before it, it is for what that one
/// opens. It fails only for want of memory.
pub(crate) fn query(
    alloc: Global,
    facts: &Facts,
    related: bool,
    fid: Fid,
) -> Result<Request, NoMemory>
    ensures value { IfOk result (λ r. r ≡ request_for facts.now (only fid) (related, Query (Own 0))) }
    ensures wide { IsWide fid }
{
    let mut body = Vec::new(alloc);
    write_query_info_request(
        &mut body,
        &QueryInfoRequest {
            info_type: FILE,
            class: ALL,
            output_length: OUTPUT,
            file_id: sent_id(related, fid),
        },
    )?;
    Ok(Request {
        command: QUERY_INFO,
        charge: charge(facts.caps),
        related,
        tree: facts.tree,
        session: facts.session,
        body: Bytes::of_vec(body),
    })
}

/// The CLOSE of a stat. Where it is related to the CREATE before it, it is for what that one opens. It fails only for want of memory.
pub(crate) fn close(
    alloc: Global,
    facts: &Facts,
    related: bool,
    fid: Fid,
) -> Result<Request, NoMemory>
    ensures value { IfOk result (λ r. r ≡ request_for facts.now (only fid) (related, Close (Own 0))) }
    ensures wide { IsWide fid }
{
    let mut body = Vec::new(alloc);
    write_close_request(
        &mut body,
        &CloseRequest {
            file_id: sent_id(related, fid),
        },
    )?;
    Ok(Request {
        command: CLOSE,
        charge: charge(facts.caps),
        related,
        tree: facts.tree,
        session: facts.session,
        body: Bytes::of_vec(body),
    })
}

// The file id that is sent: all bits where the request is related to the CREATE before it.
fn sent_id(related: bool, fid: Fid) -> Fid
    ensures { result ≡ fid_sent related (only fid) (Own 0) }
{
    if related { EVERY_BIT } else { fid }
}

/// TREE_DISCONNECT of the mounted share. It fails only for want of memory.
pub(crate) fn tree_disconnect(alloc: Global, facts: &Facts) -> Result<Request, NoMemory>
    ensures { IfOk result (λ r. r ≡ tree_disconnect facts.now) }
{
    let mut body = Vec::new(alloc);
    write_empty(&mut body, &Empty)?;
    Ok(Request {
        command: TREE_DISCONNECT,
        charge: charge(facts.caps),
        related: false,
        tree: facts.tree,
        session: facts.session,
        body: Bytes::of_vec(body),
    })
}

/// LOGOFF of its session. It fails only for want of memory.
pub(crate) fn logoff(alloc: Global, facts: &Facts) -> Result<Request, NoMemory>
    ensures { IfOk result (λ r. r ≡ logoff facts.now) }
{
    let mut body = Vec::new(alloc);
    write_empty(&mut body, &Empty)?;
    Ok(Request {
        command: LOGOFF,
        charge: charge(facts.caps),
        related: false,
        tree: 0,
        session: facts.session,
        body: Bytes::of_vec(body),
    })
}

// What a request costs whose payload is below 65,536 bytes: one credit where the server knows larger charges (MS-SMB2 3.2.4.1.5), else
// 0, as the field is reserved there.
fn charge(caps: ServerCaps) -> u16
    ensures { result ≡ charge_of caps }
{
    if caps.0 & ServerCaps::LARGE_MTU.0 == ServerCaps::LARGE_MTU.0 {
        1
    } else {
        0
    }
}
