//! What a file is told to become (MS-FSCC 2.4).

ghost use Rattle.std.specs.Prelude.{◌≡◌, [], ◌^◌, ◌<◌, IsOk, length};
ghost use Rattle.smb_le.specs.Numbers.{number_at};
ghost use Rattle.smb_field.specs.Rows.{seen_as};
ghost use Rattle.smb_field.specs.Body.{Strays};
ghost use Rattle.smb_field.specs.Structure.{WritesStructure};
ghost use Rattle.smb_info.specs.Reading.{ReadsInfo};
ghost use Rattle.smb_info.specs.Change.{end_of_file, IsEndOfFile, disposition, IsDisposition, rename, IsRename, link, IsLink, end_of_file_of, disposition_of, new_name_of, seen_rename, seen_link};
ghost use Rattle.smb_info.specs.declared.change.EndOfFile.{EndOfFile};
ghost use Rattle.smb_info.specs.declared.change.Disposition.{Disposition};
ghost use Rattle.smb_info.specs.declared.change.Rename.{Rename};
ghost use Rattle.smb_info.specs.declared.change.Link.{Link};

use crate::fault::InfoFault;
use smb_base::NoMemory;
use smb_field::{Field, lent, put_structure};
use smb_le::{get_u32, get_u64};

/// Class 20: the end of a file (MS-FSCC 2.4, FileEndOfFileInformation).
#[derive(Drop)]
pub struct EndOfFile {
    /// How many bytes the file is to have.
    pub end_of_file: u64,
}

/// Reads the end of a file. It takes no memory.
///
/// # Errors
///
/// [`InfoFault::Short`] exactly where there are fewer than 8 bytes.
#[tactic(auto, unfolding(crate::specs::Change::end_of_file_of))]
pub fn read_end_of_file(info: &[u8]) -> Result<EndOfFile, InfoFault>
    ensures exact { result ≡ end_of_file_of info.now }
    ensures reads { ReadsInfo 8 (λ (x : EndOfFile). IsEndOfFile x info.now) ⊥ info.now result }
    ensures only { (x : EndOfFile) → IsEndOfFile x info.now → IsOk result }
{
    if info.len() < 8 {
        return Err(InfoFault::Short);
    }
    Ok(EndOfFile {
        end_of_file: get_u64(info, 0),
    })
}

/// Appends the end of a file. For want of memory nothing is changed.
pub fn write_end_of_file(out: &mut Vec<u8>, x: &EndOfFile) -> Result<(), NoMemory>
    ensures { WritesStructure (end_of_file x.now) [] out.old.items out.new.items result }
{
    put_structure(out, 8, &[Field::U64(x.end_of_file)], &[])
}

/// Class 13: whether a file is deleted once it is closed (MS-FSCC 2.4, FileDispositionInformation).
#[derive(Drop)]
pub struct Disposition {
    /// To be deleted (1), or not (0).
    pub delete_pending: u8,
}

/// Reads whether a file is to be deleted. It takes no memory.
///
/// # Errors
///
/// [`InfoFault::Short`] exactly where there is no byte.
#[tactic(auto, unfolding(crate::specs::Change::disposition_of))]
pub fn read_disposition(info: &[u8]) -> Result<Disposition, InfoFault>
    ensures exact { result ≡ disposition_of info.now }
    ensures reads { ReadsInfo 1 (λ (x : Disposition). IsDisposition x info.now) ⊥ info.now result }
    ensures only { (x : Disposition) → IsDisposition x info.now → IsOk result }
{
    if info.is_empty() {
        return Err(InfoFault::Short);
    }
    Ok(Disposition {
        delete_pending: info[0],
    })
}

/// Appends whether a file is to be deleted. For want of memory nothing is changed.
pub fn write_disposition(out: &mut Vec<u8>, x: &Disposition) -> Result<(), NoMemory>
    ensures { WritesStructure (disposition x.now) [] out.old.items out.new.items result }
{
    put_structure(out, 1, &[Field::U8(x.delete_pending)], &[])
}

/// Class 10: a new name for a file (MS-FSCC 2.4, FileRenameInformation for SMB2).
#[derive(Drop)]
pub struct Rename<'a> {
    /// Whether a file that has the name is replaced (1), or the name refused (0).
    pub replace: u8,
    /// The whole path from the share's root, in UTF-16.
    pub name: &'a [u8],
}

/// Reads a new name for a file. The name is lent from the information; what stands in the reserved bytes and in the root directory
/// is not looked at. It takes no memory.
///
/// # Errors
///
/// [`InfoFault::Short`] exactly where there are fewer than 20 bytes, or the name leaves the information.
#[tactic(auto, unfolding(crate::specs::Change::new_name_of))]
pub fn read_rename(info: &[u8]) -> Result<Rename<'_>, InfoFault>
    ensures exact { seen_as seen_rename result ≡ new_name_of info.now }
    ensures reads { ReadsInfo 20 (λ (x : Rename). IsRename x info.now) (Strays 20 20 (number_at 4 16 info.now) info.now) info.now result }
    ensures only { (x : Rename) → IsRename x info.now → IsOk result }
{
    if info.len() < 20 {
        return Err(InfoFault::Short);
    }
    let Some(name) = lent(info, 20, 20, get_u32(info, 16)) else {
        return Err(InfoFault::Short);
    };
    Ok(Rename {
        replace: info[0],
        name,
    })
}

/// Appends a new name for a file. For want of memory nothing is changed.
pub fn write_rename(out: &mut Vec<u8>, x: &Rename<'_>) -> Result<(), NoMemory>
    requires { length x.now.name.now < 2 ^ 32 }
    ensures { WritesStructure (rename x.now) x.now.name.now out.old.items out.new.items result }
{
    put_structure(
        out,
        20,
        &[
            Field::U8(x.replace),
            Field::Any8(0),
            Field::Any16(0),
            Field::Any32(0),
            Field::Any64(0),
            Field::U32(x.name.len() as u32),
            Field::Follows,
        ],
        x.name,
    )
}

/// Class 11: one more name for a file (MS-FSCC 2.4, FileLinkInformation for SMB2).
#[derive(Drop)]
pub struct Link<'a> {
    /// Whether a file that has the name is replaced (1), or the name refused (0).
    pub replace: u8,
    /// The whole path from the share's root, in UTF-16.
    pub name: &'a [u8],
}

/// Reads one more name for a file. The name is lent from the information; what stands in the reserved bytes and in the root
/// directory is not looked at. It takes no memory.
///
/// # Errors
///
/// [`InfoFault::Short`] exactly where there are fewer than 20 bytes, or the name leaves the information.
#[tactic(auto, unfolding(crate::specs::Change::new_name_of))]
pub fn read_link(info: &[u8]) -> Result<Link<'_>, InfoFault>
    ensures exact { seen_as seen_link result ≡ new_name_of info.now }
    ensures reads { ReadsInfo 20 (λ (x : Link). IsLink x info.now) (Strays 20 20 (number_at 4 16 info.now) info.now) info.now result }
    ensures only { (x : Link) → IsLink x info.now → IsOk result }
{
    if info.len() < 20 {
        return Err(InfoFault::Short);
    }
    let Some(name) = lent(info, 20, 20, get_u32(info, 16)) else {
        return Err(InfoFault::Short);
    };
    Ok(Link {
        replace: info[0],
        name,
    })
}

/// Appends one more name for a file. For want of memory nothing is changed.
pub fn write_link(out: &mut Vec<u8>, x: &Link<'_>) -> Result<(), NoMemory>
    requires { length x.now.name.now < 2 ^ 32 }
    ensures { WritesStructure (link x.now) x.now.name.now out.old.items out.new.items result }
{
    put_structure(
        out,
        20,
        &[
            Field::U8(x.replace),
            Field::Any8(0),
            Field::Any16(0),
            Field::Any32(0),
            Field::Any64(0),
            Field::U32(x.name.len() as u32),
            Field::Follows,
        ],
        x.name,
    )
}
