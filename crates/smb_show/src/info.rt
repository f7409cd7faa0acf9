//! The classes of information, as `smb_info` reads them.

use smb_base::NoMemory;
use smb_info::{
    DirEntry, Entries, InfoFault, read_all, read_basic, read_disposition, read_end_of_file,
    read_fs_full_size, read_id_full_directory, read_internal, read_link, read_rename,
    read_standard, write_all, write_basic, write_disposition, write_end_of_file,
    write_fs_full_size, write_id_full_directory, write_internal, write_link, write_rename,
    write_standard,
};
use test_text::{Item, Page};

/// Adds the lines of a vector, if its kind is one of these.
pub fn show(page: &mut Page, kind: &str, info: &[u8]) -> Result<bool, NoMemory> {
    match kind {
        "basic" => basic(page, info)?,
        "standard" => standard(page, info)?,
        "internal" => internal(page, info)?,
        "all" => all(page, info)?,
        "fs_full_size" => fs_full_size(page, info)?,
        "end_of_file" => end_of_file(page, info)?,
        "disposition" => disposition(page, info)?,
        "rename" => rename(page, info)?,
        "link" => link(page, info)?,
        "id_full_directory" => id_full_directory(page, info)?,
        "entries" => entries(page, info)?,
        _ => return Ok(false),
    }
    Ok(true)
}

// Class 4, FileBasicInformation (MS-FSCC 2.4).
fn basic(page: &mut Page, info: &[u8]) -> Result<(), NoMemory> {
    match read_basic(info) {
        Err(fault) => info_fault(page, fault),
        Ok(x) => {
            page.fields(&[
                Item::Number("CreationTime", x.times[0]),
                Item::Number("LastAccessTime", x.times[1]),
                Item::Number("LastWriteTime", x.times[2]),
                Item::Number("ChangeTime", x.times[3]),
                Item::Number("FileAttributes", u64::from(x.attributes)),
            ])?;
            let mut again = Vec::new(page.alloc());
            write_basic(&mut again, &x)?;
            page.again(&again, info)
        }
    }
}

// Class 5, FileStandardInformation (MS-FSCC 2.4).
fn standard(page: &mut Page, info: &[u8]) -> Result<(), NoMemory> {
    match read_standard(info) {
        Err(fault) => info_fault(page, fault),
        Ok(x) => {
            page.fields(&[
                Item::Number("AllocationSize", x.allocation_size),
                Item::Number("EndOfFile", x.end_of_file),
                Item::Number("NumberOfLinks", u64::from(x.links)),
                Item::Number("DeletePending", u64::from(x.delete_pending)),
                Item::Number("Directory", u64::from(x.directory)),
            ])?;
            let mut again = Vec::new(page.alloc());
            write_standard(&mut again, &x)?;
            page.again(&again, info)
        }
    }
}

// Class 6, FileInternalInformation (MS-FSCC 2.4).
fn internal(page: &mut Page, info: &[u8]) -> Result<(), NoMemory> {
    match read_internal(info) {
        Err(fault) => info_fault(page, fault),
        Ok(x) => {
            page.fields(&[Item::Number("IndexNumber", x.number)])?;
            let mut again = Vec::new(page.alloc());
            write_internal(&mut again, &x)?;
            page.again(&again, info)
        }
    }
}

// Class 18, FileAllInformation without its name (MS-FSCC 2.4).
fn all(page: &mut Page, info: &[u8]) -> Result<(), NoMemory> {
    match read_all(info) {
        Err(fault) => info_fault(page, fault),
        Ok(x) => {
            page.fields(&[
                Item::Number("CreationTime", x.basic.times[0]),
                Item::Number("LastAccessTime", x.basic.times[1]),
                Item::Number("LastWriteTime", x.basic.times[2]),
                Item::Number("ChangeTime", x.basic.times[3]),
                Item::Number("FileAttributes", u64::from(x.basic.attributes)),
                Item::Number("AllocationSize", x.standard.allocation_size),
                Item::Number("EndOfFile", x.standard.end_of_file),
                Item::Number("NumberOfLinks", u64::from(x.standard.links)),
                Item::Number("DeletePending", u64::from(x.standard.delete_pending)),
                Item::Number("Directory", u64::from(x.standard.directory)),
                Item::Number("IndexNumber", x.internal.number),
                Item::Number("EaSize", u64::from(x.ea_size)),
                Item::Number("AccessFlags", u64::from(x.access)),
                Item::Number("CurrentByteOffset", x.position),
                Item::Number("Mode", u64::from(x.mode)),
                Item::Number("AlignmentRequirement", u64::from(x.alignment)),
            ])?;
            let mut again = Vec::new(page.alloc());
            write_all(&mut again, &x)?;
            page.again(&again, info)
        }
    }
}

// Class 7 of a file system, FileFsFullSizeInformation (MS-FSCC 2.5).
fn fs_full_size(page: &mut Page, info: &[u8]) -> Result<(), NoMemory> {
    match read_fs_full_size(info) {
        Err(fault) => info_fault(page, fault),
        Ok(x) => {
            page.fields(&[
                Item::Number("TotalAllocationUnits", x.total),
                Item::Number("CallerAvailableAllocationUnits", x.caller_free),
                Item::Number("ActualAvailableAllocationUnits", x.actual_free),
                Item::Number("SectorsPerAllocationUnit", u64::from(x.sectors_per_unit)),
                Item::Number("BytesPerSector", u64::from(x.bytes_per_sector)),
            ])?;
            let mut again = Vec::new(page.alloc());
            write_fs_full_size(&mut again, &x)?;
            page.again(&again, info)
        }
    }
}

// Class 20, FileEndOfFileInformation (MS-FSCC 2.4).
fn end_of_file(page: &mut Page, info: &[u8]) -> Result<(), NoMemory> {
    match read_end_of_file(info) {
        Err(fault) => info_fault(page, fault),
        Ok(x) => {
            page.fields(&[Item::Number("EndOfFile", x.end_of_file)])?;
            let mut again = Vec::new(page.alloc());
            write_end_of_file(&mut again, &x)?;
            page.again(&again, info)
        }
    }
}

// Class 13, FileDispositionInformation (MS-FSCC 2.4).
fn disposition(page: &mut Page, info: &[u8]) -> Result<(), NoMemory> {
    match read_disposition(info) {
        Err(fault) => info_fault(page, fault),
        Ok(x) => {
            page.fields(&[Item::Number("DeletePending", u64::from(x.delete_pending))])?;
            let mut again = Vec::new(page.alloc());
            write_disposition(&mut again, &x)?;
            page.again(&again, info)
        }
    }
}

// Class 10, FileRenameInformation for SMB2 (MS-FSCC 2.4).
fn rename(page: &mut Page, info: &[u8]) -> Result<(), NoMemory> {
    match read_rename(info) {
        Err(fault) => info_fault(page, fault),
        Ok(x) => {
            page.fields(&[
                Item::Number("ReplaceIfExists", u64::from(x.replace)),
                Item::Number("FileNameLength", x.name.len() as u64),
                Item::Bytes("FileName", x.name),
            ])?;
            if x.name.len() < 4_294_967_296 {
                let mut again = Vec::new(page.alloc());
                write_rename(&mut again, &x)?;
                page.again(&again, info)?;
            }
            Ok(())
        }
    }
}

// Class 11, FileLinkInformation for SMB2 (MS-FSCC 2.4).
fn link(page: &mut Page, info: &[u8]) -> Result<(), NoMemory> {
    match read_link(info) {
        Err(fault) => info_fault(page, fault),
        Ok(x) => {
            page.fields(&[
                Item::Number("ReplaceIfExists", u64::from(x.replace)),
                Item::Number("FileNameLength", x.name.len() as u64),
                Item::Bytes("FileName", x.name),
            ])?;
            if x.name.len() < 4_294_967_296 {
                let mut again = Vec::new(page.alloc());
                write_link(&mut again, &x)?;
                page.again(&again, info)?;
            }
            Ok(())
        }
    }
}

// The first entry of class 38, FileIdFullDirectoryInformation (MS-FSCC 2.4).
fn id_full_directory(page: &mut Page, info: &[u8]) -> Result<(), NoMemory> {
    match read_id_full_directory(info) {
        Err(fault) => info_fault(page, fault),
        Ok(x) => {
            entry_fields(page, &x)?;
            let mut again = Vec::new(page.alloc());
            put(&mut again, &x)?;
            page.again(&again, info)
        }
    }
}

// All entries of class 38, one after another.
fn entries(page: &mut Page, info: &[u8]) -> Result<(), NoMemory> {
    let mut again = Vec::new(page.alloc());
    for entry in Entries::new(info) {
        match entry {
            Ok(x) => {
                entry_fields(page, &x)?;
                put(&mut again, &x)?;
            }
            Err(fault) => return info_fault(page, fault),
        }
    }
    page.again(&again, info)
}

// Writes an entry again, if it is one that may be written.
fn put(out: &mut Vec<u8>, x: &DirEntry<'_>) -> Result<(), NoMemory> {
    if x.name.len() < 4_294_967_296 && x.is_placed() {
        write_id_full_directory(out, x)?;
    }
    Ok(())
}

fn entry_fields(page: &mut Page, x: &DirEntry<'_>) -> Result<(), NoMemory> {
    page.fields(&[
        Item::Number("NextEntryOffset", u64::from(x.next)),
        Item::Number("FileIndex", u64::from(x.index)),
        Item::Number("CreationTime", x.times[0]),
        Item::Number("LastAccessTime", x.times[1]),
        Item::Number("LastWriteTime", x.times[2]),
        Item::Number("ChangeTime", x.times[3]),
        Item::Number("EndOfFile", x.end_of_file),
        Item::Number("AllocationSize", x.allocation_size),
        Item::Number("FileAttributes", u64::from(x.attributes)),
        Item::Number("FileNameLength", x.name.len() as u64),
        Item::Number("EaSize", u64::from(x.ea_size)),
        Item::Number("FileId", x.number),
        Item::Bytes("FileName", x.name),
    ])
}

// The line of what a reader of information refused.
fn info_fault(page: &mut Page, fault: InfoFault) -> Result<(), NoMemory> {
    page.fault(match fault {
        InfoFault::Short => "Short",
        InfoFault::Next => "Next",
    })
}
