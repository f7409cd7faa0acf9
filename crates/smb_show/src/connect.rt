//! The kinds of messages that open and close a connection to a share, as `smb_body_a` reads them.

use smb_base::NoMemory;
use smb_body_a::{
    read_empty, read_negotiate_reply, read_negotiate_request, read_session_setup_reply,
    read_session_setup_request, read_tree_connect_reply, read_tree_connect_request, write_empty,
    write_negotiate_reply, write_negotiate_request, write_session_setup_reply,
    write_session_setup_request, write_tree_connect_reply, write_tree_connect_request,
};
use test_text::{Item, Page, body_fault, header};

/// Adds the lines of a vector, if its kind is one of these.
pub fn show(page: &mut Page, kind: &str, part: &[u8]) -> Result<bool, NoMemory> {
    match kind {
        "negotiate_request" => negotiate_request(page, part)?,
        "negotiate_reply" => negotiate_reply(page, part)?,
        "session_setup_request" => session_setup_request(page, part)?,
        "session_setup_reply" => session_setup_reply(page, part)?,
        "tree_connect_request" => tree_connect_request(page, part)?,
        "tree_connect_reply" => tree_connect_reply(page, part)?,
        "empty" => empty(page, part)?,
        _ => return Ok(false),
    }
    Ok(true)
}

// A NEGOTIATE request (MS-SMB2 2.2.3).
fn negotiate_request(page: &mut Page, part: &[u8]) -> Result<(), NoMemory> {
    match read_negotiate_request(part) {
        Err(fault) => body_fault(page, fault),
        Ok(x) => {
            page.fields(&[
                Item::Number("StructureSize", 36),
                Item::Number("DialectCount", x.dialects.len() as u64 / 2),
                Item::Bytes("ClientGuid", &x.client_guid),
            ])?;
            page.fields(&[Item::Bytes("Dialects", x.dialects)])?;
            if x.dialects.len() % 2 == 0 && x.dialects.len() / 2 < 65_536 {
                let mut again = header(page.alloc(), part)?;
                write_negotiate_request(&mut again, &x)?;
                page.again(&again, part)?;
            }
            Ok(())
        }
    }
}

// A NEGOTIATE reply (MS-SMB2 2.2.4).
fn negotiate_reply(page: &mut Page, part: &[u8]) -> Result<(), NoMemory> {
    match read_negotiate_reply(part) {
        Err(fault) => body_fault(page, fault),
        Ok(x) => {
            page.fields(&[
                Item::Number("StructureSize", 65),
                Item::Number("SecurityMode", u64::from(x.security_mode)),
                Item::Number("DialectRevision", u64::from(x.dialect)),
                Item::Bytes("ServerGuid", &x.server_guid),
            ])?;
            page.fields(&[
                Item::Number("Capabilities", u64::from(x.capabilities)),
                Item::Number("MaxTransactSize", u64::from(x.max_transact)),
                Item::Number("MaxReadSize", u64::from(x.max_read)),
                Item::Number("MaxWriteSize", u64::from(x.max_write)),
                Item::Number("SystemTime", x.system_time),
                Item::Number("ServerStartTime", x.start_time),
                Item::Number("SecurityBufferLength", x.buffer.len() as u64),
                Item::Bytes("Buffer", x.buffer),
            ])?;
            if x.buffer.len() < 65_536 {
                let mut again = header(page.alloc(), part)?;
                write_negotiate_reply(&mut again, &x)?;
                page.again(&again, part)?;
            }
            Ok(())
        }
    }
}

// A SESSION_SETUP request (MS-SMB2 2.2.5).
fn session_setup_request(page: &mut Page, part: &[u8]) -> Result<(), NoMemory> {
    match read_session_setup_request(part) {
        Err(fault) => body_fault(page, fault),
        Ok(x) => {
            page.fields(&[
                Item::Number("StructureSize", 25),
                Item::Number("SecurityBufferLength", x.buffer.len() as u64),
                Item::Number("PreviousSessionId", x.previous_session_id),
                Item::Bytes("Buffer", x.buffer),
            ])?;
            if x.buffer.len() < 65_536 {
                let mut again = header(page.alloc(), part)?;
                write_session_setup_request(&mut again, &x)?;
                page.again(&again, part)?;
            }
            Ok(())
        }
    }
}

// A SESSION_SETUP reply (MS-SMB2 2.2.6).
fn session_setup_reply(page: &mut Page, part: &[u8]) -> Result<(), NoMemory> {
    match read_session_setup_reply(part) {
        Err(fault) => body_fault(page, fault),
        Ok(x) => {
            page.fields(&[
                Item::Number("StructureSize", 9),
                Item::Number("SessionFlags", u64::from(x.session_flags)),
                Item::Number("SecurityBufferLength", x.buffer.len() as u64),
                Item::Bytes("Buffer", x.buffer),
            ])?;
            if x.buffer.len() < 65_536 {
                let mut again = header(page.alloc(), part)?;
                write_session_setup_reply(&mut again, &x)?;
                page.again(&again, part)?;
            }
            Ok(())
        }
    }
}

// A TREE_CONNECT request (MS-SMB2 2.2.9).
fn tree_connect_request(page: &mut Page, part: &[u8]) -> Result<(), NoMemory> {
    match read_tree_connect_request(part) {
        Err(fault) => body_fault(page, fault),
        Ok(x) => {
            page.fields(&[
                Item::Number("StructureSize", 9),
                Item::Number("PathLength", x.path.len() as u64),
                Item::Bytes("Buffer", x.path),
            ])?;
            if x.path.len() < 65_536 {
                let mut again = header(page.alloc(), part)?;
                write_tree_connect_request(&mut again, &x)?;
                page.again(&again, part)?;
            }
            Ok(())
        }
    }
}

// A TREE_CONNECT reply (MS-SMB2 2.2.10).
fn tree_connect_reply(page: &mut Page, part: &[u8]) -> Result<(), NoMemory> {
    match read_tree_connect_reply(part) {
        Err(fault) => body_fault(page, fault),
        Ok(x) => {
            page.fields(&[
                Item::Number("StructureSize", 16),
                Item::Number("ShareType", u64::from(x.share_type)),
                Item::Number("ShareFlags", u64::from(x.share_flags)),
                Item::Number("Capabilities", u64::from(x.capabilities)),
                Item::Number("MaximalAccess", u64::from(x.maximal_access)),
            ])?;
            let mut again = header(page.alloc(), part)?;
            write_tree_connect_reply(&mut again, &x)?;
            page.again(&again, part)
        }
    }
}

// The body without a field: LOGOFF, TREE_DISCONNECT and ECHO both ways, the replies to FLUSH and LOCK (MS-SMB2 2.2.7 and others).
fn empty(page: &mut Page, part: &[u8]) -> Result<(), NoMemory> {
    match read_empty(part) {
        Err(fault) => body_fault(page, fault),
        Ok(x) => {
            page.fields(&[Item::Number("StructureSize", 4)])?;
            let mut again = header(page.alloc(), part)?;
            write_empty(&mut again, &x)?;
            page.again(&again, part)
        }
    }
}
