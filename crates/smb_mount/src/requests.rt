//! The requests of a mount and of its end.

ghost use Rattle.std.specs.Prelude.{◌≡◌, ◌^◌, ◌<◌, ◌≤◌, ◌*◌, [], IfOk, length};
ghost use Rattle.smb_mount.specs.Requests.{charge_of, unit_bytes, negotiate, session_setup, tree_connect, tree_disconnect, logoff, IsWritten, negotiate_fields, dialects, session_fields, tree_fields, no_fields};

use crate::facts::Facts;
use smb_base::{Bytes, NoMemory};
use smb_body_a::{
    Empty, NegotiateRequest, SessionSetupRequest, TreeConnectRequest, write_empty,
    write_negotiate_request, write_session_setup_request, write_tree_connect_request,
};
use smb_head::Request;
use smb_head::command::{LOGOFF, NEGOTIATE, SESSION_SETUP, TREE_CONNECT, TREE_DISCONNECT};
use smb_le::ServerCaps;
use std::alloc::Global;

/// The NEGOTIATE_MESSAGE of an anonymous client: `NTLMSSP` and a zero byte, type 1, flags UNICODE, REQUEST_TARGET and NTLM, no
/// domain, no workstation and no version (MS-NLMP 2.2.1.1).
pub const NEGOTIATE_TOKEN: [u8; 40] = [
    0x4E, 0x54, 0x4C, 0x4D, 0x53, 0x53, 0x50, 0, 1, 0, 0, 0, 5, 2, 0, 0, 0, 0, 0, 0, 0, 0, 0, 0, 0,
    0, 0, 0, 0, 0, 0, 0, 0, 0, 0, 0, 0, 0, 0, 0,
];

/// The AUTHENTICATE_MESSAGE of an anonymous client: `NTLMSSP` and a zero byte, type 3, a one-byte LM response, an empty NT response,
/// domain, user, workstation and session key, flags with ANONYMOUS, no version, and the one byte of the LM response (MS-NLMP 2.2.1.3
/// and 3.2.5.1.2).
pub const AUTHENTICATE_TOKEN: [u8; 73] = [
    0x4E, 0x54, 0x4C, 0x4D, 0x53, 0x53, 0x50, 0, 3, 0, 0, 0, 1, 0, 1, 0, 72, 0, 0, 0, 0, 0, 0, 0,
    72, 0, 0, 0, 0, 0, 0, 0, 72, 0, 0, 0, 0, 0, 0, 0, 72, 0, 0, 0, 0, 0, 0, 0, 72, 0, 0, 0, 0, 0,
    0, 0, 72, 0, 0, 0, 5, 0x0A, 0, 0, 0, 0, 0, 0, 0, 0, 0, 0, 0,
];

/// What a request costs whose payload is below 65,536 bytes: one credit where the server knows larger charges (MS-SMB2
/// 3.2.4.1.5), else 0, as the field is reserved there.
fn charge(caps: ServerCaps) -> u16
    ensures { result ≡ charge_of caps }
{
    if caps.0 & ServerCaps::LARGE_MTU.0 == ServerCaps::LARGE_MTU.0 {
        1
    } else {
        0
    }
}

/// NEGOTIATE, which offers SMB 2.1 alone.
pub fn negotiate(alloc: Global, guid: [u8; 16]) -> Result<Request, NoMemory>
    ensures value { IfOk result (λ request. request ≡ negotiate guid) }
    ensures written { IfOk result (IsWritten 36 (negotiate_fields guid) dialects) }
{
    let mut body = Vec::new(alloc);
    let fields = NegotiateRequest {
        client_guid: guid,
        dialects: &[0x10, 0x02],
    };
    write_negotiate_request(&mut body, &fields)?;
    Ok(Request {
        command: NEGOTIATE,
        charge: 0,
        related: false,
        tree: 0,
        session: 0,
        body: Bytes::of_vec(body),
    })
}

/// SESSION_SETUP with this token.
pub fn session_setup(
    alloc: Global,
    caps: ServerCaps,
    session: u64,
    previous: u64,
    token: &[u8],
) -> Result<Request, NoMemory>
    requires { length token.now < 2 ^ 16 }
    ensures value { IfOk result (λ request. request ≡ session_setup caps session previous token.now) }
    ensures written { IfOk result (IsWritten 25 (session_fields previous token.now) token.now) }
{
    let mut body = Vec::new(alloc);
    let fields = SessionSetupRequest {
        previous_session_id: previous,
        buffer: token,
    };
    write_session_setup_request(&mut body, &fields)?;
    Ok(Request {
        command: SESSION_SETUP,
        charge: charge(caps),
        related: false,
        tree: 0,
        session,
        body: Bytes::of_vec(body),
    })
}

/// TREE_CONNECT to the share of this path.
pub fn tree_connect(
    alloc: Global,
    caps: ServerCaps,
    session: u64,
    path: &[u16],
) -> Result<Request, NoMemory>
    requires { length path.now ≤ 32767 }
    ensures value { IfOk result (λ request. request ≡ tree_connect caps session path.now) }
    ensures written { IfOk result (IsWritten 9 (tree_fields (unit_bytes path.now)) (unit_bytes path.now)) }
{
    let path = bytes_of_units(alloc, path)?;
    let mut body = Vec::new(alloc);
    write_tree_connect_request(&mut body, &TreeConnectRequest { path: &path })?;
    Ok(Request {
        command: TREE_CONNECT,
        charge: charge(caps),
        related: false,
        tree: 0,
        session,
        body: Bytes::of_vec(body),
    })
}

/// Units of UTF-16 as bytes, the low byte of each first.
#[tactic(auto, unfolding(crate::specs::Requests::unit_bytes, smb_le::specs::Numbers::bytes_of))]
fn bytes_of_units(alloc: Global, units: &[u16]) -> Result<Vec<u8>, NoMemory>
    ensures value { IfOk result (λ bytes. bytes.items ≡ unit_bytes units.now) }
    ensures double { IfOk result (λ bytes. length bytes.items ≡ 2 * length units.now) }
{
    let mut bytes = Vec::new(alloc);
    for unit in units {
        bytes.extend_from_slice(&unit.to_le_bytes())?;
    }
    Ok(bytes)
}

/// TREE_DISCONNECT of this mount's tree.
pub fn tree_disconnect(alloc: Global, facts: &Facts) -> Result<Request, NoMemory>
    ensures value { IfOk result (λ request. request ≡ tree_disconnect facts.now) }
    ensures written { IfOk result (IsWritten 4 no_fields []) }
{
    let mut body = Vec::new(alloc);
    write_empty(&mut body, &Empty)?;
    Ok(Request {
        command: TREE_DISCONNECT,
        charge: charge(facts.caps),
        related: false,
        tree: facts.tree,
        session: facts.session,
        body: Bytes::of_vec(body),
    })
}

/// LOGOFF of this mount's session.
pub fn logoff(alloc: Global, facts: &Facts) -> Result<Request, NoMemory>
    ensures value { IfOk result (λ request. request ≡ logoff facts.now) }
    ensures written { IfOk result (IsWritten 4 no_fields []) }
{
    let mut body = Vec::new(alloc);
    write_empty(&mut body, &Empty)?;
    Ok(Request {
        command: LOGOFF,
        charge: charge(facts.caps),
        related: false,
        tree: 0,
        session: facts.session,
        body: Bytes::of_vec(body),
    })
}
