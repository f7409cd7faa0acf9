//! The kinds of messages on files, as `smb_body_b` reads them.

use smb_base::NoMemory;
use smb_body_b::{
    read_close_reply, read_close_request, read_contexts, read_create_reply, read_create_request,
    read_flush_request, read_read_reply, read_read_request, read_write_reply, read_write_request,
    write_close_reply, write_close_request, write_contexts, write_create_reply,
    write_create_request, write_flush_request, write_read_reply, write_read_request,
    write_write_reply, write_write_request,
};
use test_text::{Item, Page, body_fault, header};

/// Adds the lines of a vector, if its kind is one of these.
pub fn show(page: &mut Page, kind: &str, part: &[u8]) -> Result<bool, NoMemory> {
    match kind {
        "create_request" => create_request(page, part)?,
        "create_reply" => create_reply(page, part)?,
        "close_request" => close_request(page, part)?,
        "close_reply" => close_reply(page, part)?,
        "flush_request" => flush_request(page, part)?,
        "read_request" => read_request(page, part)?,
        "read_reply" => read_reply(page, part)?,
        "write_request" => write_request(page, part)?,
        "write_reply" => write_reply(page, part)?,
        "contexts_of_request" => contexts_of_request(page, part)?,
        "contexts_of_reply" => contexts_of_reply(page, part)?,
        _ => return Ok(false),
    }
    Ok(true)
}

// A CREATE request (MS-SMB2 2.2.13).
fn create_request(page: &mut Page, part: &[u8]) -> Result<(), NoMemory> {
    match read_create_request(part) {
        Err(fault) => body_fault(page, fault),
        Ok(x) => {
            page.fields(&[
                Item::Number("StructureSize", 57),
                Item::Number("RequestedOplockLevel", u64::from(x.oplock_level)),
                Item::Number("DesiredAccess", u64::from(x.access)),
                Item::Number("FileAttributes", u64::from(x.attributes)),
                Item::Number("ShareAccess", u64::from(x.share)),
                Item::Number("CreateDisposition", u64::from(x.disposition)),
                Item::Number("CreateOptions", u64::from(x.options)),
                Item::Number("NameLength", x.name.len() as u64),
                Item::Number("CreateContextsLength", x.contexts.len() as u64),
                Item::Bytes("Name", x.name),
                Item::Bytes("CreateContexts", x.contexts),
            ])?;
            if x.disposition <= 5
                && x.name.len() % 2 == 0
                && x.name.len() < 65_536
                && x.contexts.len() < 4_294_967_296
            {
                let mut again = header(page.alloc(), part)?;
                write_create_request(&mut again, &x)?;
                page.again(&again, part)?;
            }
            Ok(())
        }
    }
}

// A CREATE reply (MS-SMB2 2.2.14).
fn create_reply(page: &mut Page, part: &[u8]) -> Result<(), NoMemory> {
    match read_create_reply(part) {
        Err(fault) => body_fault(page, fault),
        Ok(x) => {
            page.fields(&[
                Item::Number("StructureSize", 89),
                Item::Number("OplockLevel", u64::from(x.oplock_level)),
                Item::Number("Flags", u64::from(x.flags)),
                Item::Number("CreateAction", u64::from(x.action)),
                Item::Number("CreationTime", x.times[0]),
                Item::Number("LastAccessTime", x.times[1]),
                Item::Number("LastWriteTime", x.times[2]),
                Item::Number("ChangeTime", x.times[3]),
                Item::Number("AllocationSize", x.allocation_size),
                Item::Number("EndofFile", x.end_of_file),
                Item::Number("FileAttributes", u64::from(x.attributes)),
                Item::Number("FileId.Persistent", x.file_id.persistent),
                Item::Number("FileId.Volatile", x.file_id.volatile),
                Item::Number("CreateContextsLength", x.contexts.len() as u64),
                Item::Bytes("CreateContexts", x.contexts),
            ])?;
            if x.contexts.len() < 4_294_967_296 {
                let mut again = header(page.alloc(), part)?;
                write_create_reply(&mut again, &x)?;
                page.again(&again, part)?;
            }
            Ok(())
        }
    }
}

// A CLOSE request (MS-SMB2 2.2.15).
fn close_request(page: &mut Page, part: &[u8]) -> Result<(), NoMemory> {
    match read_close_request(part) {
        Err(fault) => body_fault(page, fault),
        Ok(x) => {
            page.fields(&[
                Item::Number("StructureSize", 24),
                Item::Number("FileId.Persistent", x.file_id.persistent),
                Item::Number("FileId.Volatile", x.file_id.volatile),
            ])?;
            let mut again = header(page.alloc(), part)?;
            write_close_request(&mut again, &x)?;
            page.again(&again, part)
        }
    }
}

// A CLOSE reply (MS-SMB2 2.2.16).
fn close_reply(page: &mut Page, part: &[u8]) -> Result<(), NoMemory> {
    match read_close_reply(part) {
        Err(fault) => body_fault(page, fault),
        Ok(x) => {
            page.fields(&[
                Item::Number("StructureSize", 60),
                Item::Number("Flags", u64::from(x.flags)),
                Item::Number("CreationTime", x.times[0]),
                Item::Number("LastAccessTime", x.times[1]),
                Item::Number("LastWriteTime", x.times[2]),
                Item::Number("ChangeTime", x.times[3]),
                Item::Number("AllocationSize", x.allocation_size),
                Item::Number("EndofFile", x.end_of_file),
                Item::Number("FileAttributes", u64::from(x.attributes)),
            ])?;
            let mut again = header(page.alloc(), part)?;
            write_close_reply(&mut again, &x)?;
            page.again(&again, part)
        }
    }
}

// A FLUSH request (MS-SMB2 2.2.17).
fn flush_request(page: &mut Page, part: &[u8]) -> Result<(), NoMemory> {
    match read_flush_request(part) {
        Err(fault) => body_fault(page, fault),
        Ok(x) => {
            page.fields(&[
                Item::Number("StructureSize", 24),
                Item::Number("FileId.Persistent", x.file_id.persistent),
                Item::Number("FileId.Volatile", x.file_id.volatile),
            ])?;
            let mut again = header(page.alloc(), part)?;
            write_flush_request(&mut again, &x)?;
            page.again(&again, part)
        }
    }
}

// A READ request (MS-SMB2 2.2.19).
fn read_request(page: &mut Page, part: &[u8]) -> Result<(), NoMemory> {
    match read_read_request(part) {
        Err(fault) => body_fault(page, fault),
        Ok(x) => {
            page.fields(&[
                Item::Number("StructureSize", 49),
                Item::Number("Length", u64::from(x.length)),
                Item::Number("Offset", x.offset),
                Item::Number("FileId.Persistent", x.file_id.persistent),
                Item::Number("FileId.Volatile", x.file_id.volatile),
            ])?;
            let mut again = header(page.alloc(), part)?;
            write_read_request(&mut again, &x)?;
            page.again(&again, part)
        }
    }
}

// A READ reply (MS-SMB2 2.2.20).
fn read_reply(page: &mut Page, part: &[u8]) -> Result<(), NoMemory> {
    match read_read_reply(part) {
        Err(fault) => body_fault(page, fault),
        Ok(x) => {
            page.fields(&[
                Item::Number("StructureSize", 17),
                Item::Number("DataLength", x.bytes.len() as u64),
                Item::Number("DataRemaining", u64::from(x.data_remaining)),
                Item::Bytes("Buffer", x.bytes),
            ])?;
            if x.bytes.len() < 4_294_967_296 {
                let mut again = header(page.alloc(), part)?;
                write_read_reply(&mut again, &x)?;
                page.again(&again, part)?;
            }
            Ok(())
        }
    }
}

// A WRITE request (MS-SMB2 2.2.21).
fn write_request(page: &mut Page, part: &[u8]) -> Result<(), NoMemory> {
    match read_write_request(part) {
        Err(fault) => body_fault(page, fault),
        Ok(x) => {
            page.fields(&[
                Item::Number("StructureSize", 49),
                Item::Number("Length", x.bytes.len() as u64),
                Item::Number("Offset", x.offset),
                Item::Number("FileId.Persistent", x.file_id.persistent),
                Item::Number("FileId.Volatile", x.file_id.volatile),
                Item::Bytes("Buffer", x.bytes),
            ])?;
            if x.bytes.len() < 4_294_967_296 {
                let mut again = header(page.alloc(), part)?;
                write_write_request(&mut again, &x)?;
                page.again(&again, part)?;
            }
            Ok(())
        }
    }
}

// A WRITE reply (MS-SMB2 2.2.22).
fn write_reply(page: &mut Page, part: &[u8]) -> Result<(), NoMemory> {
    match read_write_reply(part) {
        Err(fault) => body_fault(page, fault),
        Ok(x) => {
            page.fields(&[
                Item::Number("StructureSize", 17),
                Item::Number("Count", u64::from(x.count)),
                Item::Number("Remaining", u64::from(x.remaining)),
                Item::Number("WriteChannelInfoOffset", u64::from(x.info_offset)),
                Item::Number("WriteChannelInfoLength", u64::from(x.info_length)),
            ])?;
            let mut again = header(page.alloc(), part)?;
            write_write_reply(&mut again, &x)?;
            page.again(&again, part)
        }
    }
}

// The create contexts of a CREATE request (MS-SMB2 2.2.13.2).
fn contexts_of_request(page: &mut Page, list: &[u8]) -> Result<(), NoMemory> {
    contexts(page, list, false)
}

// The create contexts of a CREATE reply (MS-SMB2 2.2.14.2).
fn contexts_of_reply(page: &mut Page, list: &[u8]) -> Result<(), NoMemory> {
    contexts(page, list, true)
}

fn contexts(page: &mut Page, list: &[u8], reply: bool) -> Result<(), NoMemory> {
    match read_contexts(list, reply) {
        Err(fault) => body_fault(page, fault),
        Ok(set) => {
            if let Some((key, state)) = set.lease {
                page.fields(&[
                    Item::Bytes("RqLs.LeaseKey", &key.0),
                    Item::Number("RqLs.LeaseState", u64::from(state)),
                ])?;
            }
            page.fields(&[Item::Number("DHnQ", u64::from(set.durable))])?;
            if let Some(fid) = set.reclaim {
                page.fields(&[
                    Item::Number("DHnC.FileId.Persistent", fid.persistent),
                    Item::Number("DHnC.FileId.Volatile", fid.volatile),
                ])?;
            }
            let mut again = Vec::new(page.alloc());
            write_contexts(&mut again, &set, reply)?;
            page.again(&again, list)
        }
    }
}
