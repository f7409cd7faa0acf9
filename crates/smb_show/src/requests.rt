//! The kinds of other messages, as `smb_body_c` reads them.

use smb_base::NoMemory;
use smb_body_c::{
    read_buffer_reply, read_error_reply, read_lease_ack, read_lease_break, read_lock_request,
    read_query_directory_request, read_query_info_request, read_set_info_reply,
    read_set_info_request, write_buffer_reply, write_error_reply, write_lease_ack,
    write_lease_break, write_lock_request, write_query_directory_request, write_query_info_request,
    write_set_info_reply, write_set_info_request,
};
use test_text::{Item, Page, body_fault, header};

/// Adds the lines of a vector, if its kind is one of these.
pub fn show(page: &mut Page, kind: &str, part: &[u8]) -> Result<bool, NoMemory> {
    match kind {
        "error_reply" => error_reply(page, part)?,
        "lock_request" => lock_request(page, part)?,
        "query_directory_request" => query_directory_request(page, part)?,
        "buffer_reply" => buffer_reply(page, part)?,
        "query_info_request" => query_info_request(page, part)?,
        "set_info_request" => set_info_request(page, part)?,
        "set_info_reply" => set_info_reply(page, part)?,
        "lease_break" => lease_break(page, part)?,
        "lease_ack" => lease_ack(page, part)?,
        _ => return Ok(false),
    }
    Ok(true)
}

// The reply of a request that the server refused (MS-SMB2 2.2.2).
fn error_reply(page: &mut Page, part: &[u8]) -> Result<(), NoMemory> {
    match read_error_reply(part) {
        Err(fault) => body_fault(page, fault),
        Ok(x) => {
            page.fields(&[
                Item::Number("StructureSize", 9),
                Item::Number("ErrorContextCount", u64::from(x.context_count)),
                Item::Number("ByteCount", x.bytes.len() as u64),
                Item::Bytes("ErrorData", x.bytes),
            ])?;
            if x.bytes.len() < 4_294_967_296 {
                let mut again = header(page.alloc(), part)?;
                write_error_reply(&mut again, &x)?;
                page.again(&again, part)?;
            }
            Ok(())
        }
    }
}

// A LOCK request with one range (MS-SMB2 2.2.26).
fn lock_request(page: &mut Page, part: &[u8]) -> Result<(), NoMemory> {
    match read_lock_request(part) {
        Err(fault) => body_fault(page, fault),
        Ok(x) => {
            page.fields(&[
                Item::Number("StructureSize", 48),
                Item::Number("LockCount", u64::from(x.lock_count)),
                Item::Number("FileId.Persistent", x.file_id.persistent),
                Item::Number("FileId.Volatile", x.file_id.volatile),
                Item::Number("Offset", x.offset),
                Item::Number("Length", x.length),
                Item::Number("Flags", u64::from(x.flags)),
            ])?;
            if x.lock_count == 1 {
                let mut again = header(page.alloc(), part)?;
                write_lock_request(&mut again, &x)?;
                page.again(&again, part)?;
            }
            Ok(())
        }
    }
}

// A QUERY_DIRECTORY request (MS-SMB2 2.2.33).
fn query_directory_request(page: &mut Page, part: &[u8]) -> Result<(), NoMemory> {
    match read_query_directory_request(part) {
        Err(fault) => body_fault(page, fault),
        Ok(x) => {
            page.fields(&[
                Item::Number("StructureSize", 33),
                Item::Number("FileInformationClass", u64::from(x.class)),
                Item::Number("Flags", u64::from(x.flags)),
                Item::Number("FileId.Persistent", x.file_id.persistent),
                Item::Number("FileId.Volatile", x.file_id.volatile),
                Item::Number("FileNameLength", x.pattern.len() as u64),
                Item::Number("OutputBufferLength", u64::from(x.output_length)),
                Item::Bytes("Buffer", x.pattern),
            ])?;
            if x.pattern.len() < 65_536 {
                let mut again = header(page.alloc(), part)?;
                write_query_directory_request(&mut again, &x)?;
                page.again(&again, part)?;
            }
            Ok(())
        }
    }
}

// A reply to QUERY_DIRECTORY or QUERY_INFO (MS-SMB2 2.2.34 and 2.2.38).
fn buffer_reply(page: &mut Page, part: &[u8]) -> Result<(), NoMemory> {
    match read_buffer_reply(part) {
        Err(fault) => body_fault(page, fault),
        Ok(x) => {
            page.fields(&[
                Item::Number("StructureSize", 9),
                Item::Number("OutputBufferLength", x.buffer.len() as u64),
                Item::Bytes("Buffer", x.buffer),
            ])?;
            if x.buffer.len() < 4_294_967_296 {
                let mut again = header(page.alloc(), part)?;
                write_buffer_reply(&mut again, &x)?;
                page.again(&again, part)?;
            }
            Ok(())
        }
    }
}

// A QUERY_INFO request (MS-SMB2 2.2.37).
fn query_info_request(page: &mut Page, part: &[u8]) -> Result<(), NoMemory> {
    match read_query_info_request(part) {
        Err(fault) => body_fault(page, fault),
        Ok(x) => {
            page.fields(&[
                Item::Number("StructureSize", 41),
                Item::Number("InfoType", u64::from(x.info_type)),
                Item::Number("FileInfoClass", u64::from(x.class)),
                Item::Number("OutputBufferLength", u64::from(x.output_length)),
                Item::Number("FileId.Persistent", x.file_id.persistent),
                Item::Number("FileId.Volatile", x.file_id.volatile),
            ])?;
            if x.info_type == 1 || x.info_type == 2 {
                let mut again = header(page.alloc(), part)?;
                write_query_info_request(&mut again, &x)?;
                page.again(&again, part)?;
            }
            Ok(())
        }
    }
}

// A SET_INFO request (MS-SMB2 2.2.39).
fn set_info_request(page: &mut Page, part: &[u8]) -> Result<(), NoMemory> {
    match read_set_info_request(part) {
        Err(fault) => body_fault(page, fault),
        Ok(x) => {
            page.fields(&[
                Item::Number("StructureSize", 33),
                Item::Number("InfoType", u64::from(x.info_type)),
                Item::Number("FileInfoClass", u64::from(x.class)),
                Item::Number("BufferLength", x.buffer.len() as u64),
                Item::Number("FileId.Persistent", x.file_id.persistent),
                Item::Number("FileId.Volatile", x.file_id.volatile),
                Item::Bytes("Buffer", x.buffer),
            ])?;
            if x.info_type == 1 && x.buffer.len() < 4_294_967_296 {
                let mut again = header(page.alloc(), part)?;
                write_set_info_request(&mut again, &x)?;
                page.again(&again, part)?;
            }
            Ok(())
        }
    }
}

// A SET_INFO reply (MS-SMB2 2.2.40).
fn set_info_reply(page: &mut Page, part: &[u8]) -> Result<(), NoMemory> {
    match read_set_info_reply(part) {
        Err(fault) => body_fault(page, fault),
        Ok(x) => {
            page.fields(&[Item::Number("StructureSize", 2)])?;
            let mut again = header(page.alloc(), part)?;
            write_set_info_reply(&mut again, &x)?;
            page.again(&again, part)
        }
    }
}

// The notification that a lease is broken (MS-SMB2 2.2.23.2).
fn lease_break(page: &mut Page, part: &[u8]) -> Result<(), NoMemory> {
    match read_lease_break(part) {
        Err(fault) => body_fault(page, fault),
        Ok(x) => {
            page.fields(&[
                Item::Number("StructureSize", 44),
                Item::Number("NewEpoch", u64::from(x.new_epoch)),
                Item::Number("Flags", u64::from(x.flags)),
                Item::Bytes("LeaseKey", &x.key.0),
                Item::Number("CurrentLeaseState", u64::from(x.current)),
                Item::Number("NewLeaseState", u64::from(x.new)),
                Item::Number("BreakReason", u64::from(x.reason)),
                Item::Number("AccessMaskHint", u64::from(x.access_hint)),
                Item::Number("ShareMaskHint", u64::from(x.share_hint)),
            ])?;
            let mut again = header(page.alloc(), part)?;
            write_lease_break(&mut again, &x)?;
            page.again(&again, part)
        }
    }
}

// The acknowledgement of a lease break, and the reply to it (MS-SMB2 2.2.24.2 and 2.2.25.2).
fn lease_ack(page: &mut Page, part: &[u8]) -> Result<(), NoMemory> {
    match read_lease_ack(part) {
        Err(fault) => body_fault(page, fault),
        Ok(x) => {
            page.fields(&[
                Item::Number("StructureSize", 36),
                Item::Number("Flags", u64::from(x.flags)),
                Item::Bytes("LeaseKey", &x.key.0),
                Item::Number("LeaseState", u64::from(x.state)),
                Item::Number("LeaseDuration", x.duration),
            ])?;
            let mut again = header(page.alloc(), part)?;
            write_lease_ack(&mut again, &x)?;
            page.again(&again, part)
        }
    }
}
