//! What a file is asked for (MS-FSCC 2.4).

ghost use Rattle.std.specs.Prelude.{◌≡◌, [], IsOk};
ghost use Rattle.smb_field.specs.Structure.{WritesStructure};
ghost use Rattle.smb_info.specs.Reading.{ReadsInfo};
ghost use Rattle.smb_info.specs.Attributes.{basic, IsBasic, standard, IsStandard, internal, IsInternal, all, IsAll, basic_of, standard_of, internal_of, all_of};
ghost use Rattle.smb_info.specs.declared.attributes.Basic.{Basic};
ghost use Rattle.smb_info.specs.declared.attributes.Standard.{Standard};
ghost use Rattle.smb_info.specs.declared.attributes.Internal.{Internal};
ghost use Rattle.smb_info.specs.declared.attributes.All.{All};

use crate::fault::InfoFault;
use smb_base::NoMemory;
use smb_field::{Field, put_structure};
use smb_le::{get_u32, get_u64};

/// Class 4: the times and attributes of a file (MS-FSCC 2.4, FileBasicInformation).
#[derive(Drop)]
pub struct Basic {
    /// The times of creation, last access, last write and change, in units of 100 nanoseconds since 1601. Where they are set, 0
    /// leaves a time as it is.
    pub times: [u64; 4],
    /// The attributes. Where they are set, 0 leaves them as they are.
    pub attributes: u32,
}

/// Reads the times and attributes of a file. It takes no memory.
///
/// # Errors
///
/// [`InfoFault::Short`] exactly where there are fewer than 40 bytes.
#[tactic(auto, unfolding(crate::specs::Attributes::basic_of))]
pub fn read_basic(info: &[u8]) -> Result<Basic, InfoFault>
    ensures exact { result ≡ basic_of info.now }
    ensures reads { ReadsInfo 40 (λ (x : Basic). IsBasic x info.now) ⊥ info.now result }
    ensures only { (x : Basic) → IsBasic x info.now → IsOk result }
{
    if info.len() < 40 {
        return Err(InfoFault::Short);
    }
    Ok(Basic {
        times: [
            get_u64(info, 0),
            get_u64(info, 8),
            get_u64(info, 16),
            get_u64(info, 24),
        ],
        attributes: get_u32(info, 32),
    })
}

/// Appends the times and attributes of a file. For want of memory nothing is changed.
pub fn write_basic(out: &mut Vec<u8>, x: &Basic) -> Result<(), NoMemory>
    ensures { WritesStructure (basic x.now) [] out.old.items out.new.items result }
{
    put_structure(
        out,
        40,
        &[
            Field::U64(x.times[0]),
            Field::U64(x.times[1]),
            Field::U64(x.times[2]),
            Field::U64(x.times[3]),
            Field::U32(x.attributes),
            Field::Any32(0),
        ],
        &[],
    )
}

/// Class 5: the sizes and links of a file (MS-FSCC 2.4, FileStandardInformation).
#[derive(Drop)]
pub struct Standard {
    /// How many bytes the file takes.
    pub allocation_size: u64,
    /// How many bytes the file has.
    pub end_of_file: u64,
    /// How many names the file has.
    pub links: u32,
    /// Whether the file is deleted once it is closed (1).
    pub delete_pending: u8,
    /// Whether it is a directory (1).
    pub directory: u8,
}

/// Reads the sizes and links of a file. It takes no memory.
///
/// # Errors
///
/// [`InfoFault::Short`] exactly where there are fewer than 24 bytes.
#[tactic(auto, unfolding(crate::specs::Attributes::standard_of))]
pub fn read_standard(info: &[u8]) -> Result<Standard, InfoFault>
    ensures exact { result ≡ standard_of info.now }
    ensures reads { ReadsInfo 24 (λ (x : Standard). IsStandard x info.now) ⊥ info.now result }
    ensures only { (x : Standard) → IsStandard x info.now → IsOk result }
{
    if info.len() < 24 {
        return Err(InfoFault::Short);
    }
    Ok(Standard {
        allocation_size: get_u64(info, 0),
        end_of_file: get_u64(info, 8),
        links: get_u32(info, 16),
        delete_pending: info[20],
        directory: info[21],
    })
}

/// Appends the sizes and links of a file. For want of memory nothing is changed.
pub fn write_standard(out: &mut Vec<u8>, x: &Standard) -> Result<(), NoMemory>
    ensures { WritesStructure (standard x.now) [] out.old.items out.new.items result }
{
    put_structure(
        out,
        24,
        &[
            Field::U64(x.allocation_size),
            Field::U64(x.end_of_file),
            Field::U32(x.links),
            Field::U8(x.delete_pending),
            Field::U8(x.directory),
            Field::Any16(0),
        ],
        &[],
    )
}

/// Class 6: the number of a file (MS-FSCC 2.4, FileInternalInformation).
#[derive(Drop)]
pub struct Internal {
    /// The number, which no other file of the share has.
    pub number: u64,
}

/// Reads the number of a file. It takes no memory.
///
/// # Errors
///
/// [`InfoFault::Short`] exactly where there are fewer than 8 bytes.
#[tactic(auto, unfolding(crate::specs::Attributes::internal_of))]
pub fn read_internal(info: &[u8]) -> Result<Internal, InfoFault>
    ensures exact { result ≡ internal_of info.now }
    ensures reads { ReadsInfo 8 (λ (x : Internal). IsInternal x info.now) ⊥ info.now result }
    ensures only { (x : Internal) → IsInternal x info.now → IsOk result }
{
    if info.len() < 8 {
        return Err(InfoFault::Short);
    }
    Ok(Internal {
        number: get_u64(info, 0),
    })
}

/// Appends the number of a file. For want of memory nothing is changed.
pub fn write_internal(out: &mut Vec<u8>, x: &Internal) -> Result<(), NoMemory>
    ensures { WritesStructure (internal x.now) [] out.old.items out.new.items result }
{
    put_structure(out, 8, &[Field::U64(x.number)], &[])
}

/// Class 18: all of a file but its name (MS-FSCC 2.4, FileAllInformation).
#[derive(Drop)]
pub struct All {
    /// Its times and attributes.
    pub basic: Basic,
    /// Its sizes and links.
    pub standard: Standard,
    /// Its number.
    pub internal: Internal,
    /// How many bytes its extended attributes take.
    pub ea_size: u32,
    /// The access of the open that it is asked through.
    pub access: u32,
    /// The position of that open, in bytes.
    pub position: u64,
    /// The mode of that open.
    pub mode: u32,
    /// How buffers have to be aligned.
    pub alignment: u32,
}

/// Reads all of a file but its name: the first 100 bytes. Its name, of which there may be a part alone, is not looked at, nor is the
/// name's length. It takes no memory.
///
/// # Errors
///
/// [`InfoFault::Short`] exactly where there are fewer than 100 bytes.
#[tactic(auto, unfolding(crate::specs::Attributes::all_of))]
pub fn read_all(info: &[u8]) -> Result<All, InfoFault>
    ensures exact { result ≡ all_of info.now }
    ensures reads { ReadsInfo 100 (λ (x : All). IsAll x info.now) ⊥ info.now result }
    ensures only { (x : All) → IsAll x info.now → IsOk result }
{
    if info.len() < 100 {
        return Err(InfoFault::Short);
    }
    Ok(All {
        basic: Basic {
            times: [
                get_u64(info, 0),
                get_u64(info, 8),
                get_u64(info, 16),
                get_u64(info, 24),
            ],
            attributes: get_u32(info, 32),
        },
        standard: Standard {
            allocation_size: get_u64(info, 40),
            end_of_file: get_u64(info, 48),
            links: get_u32(info, 56),
            delete_pending: info[60],
            directory: info[61],
        },
        internal: Internal {
            number: get_u64(info, 64),
        },
        ea_size: get_u32(info, 72),
        access: get_u32(info, 76),
        position: get_u64(info, 80),
        mode: get_u32(info, 88),
        alignment: get_u32(info, 92),
    })
}

/// Appends all of a file, with an empty name. For want of memory nothing is changed.
pub fn write_all(out: &mut Vec<u8>, x: &All) -> Result<(), NoMemory>
    ensures { WritesStructure (all x.now) [] out.old.items out.new.items result }
{
    put_structure(
        out,
        100,
        &[
            Field::U64(x.basic.times[0]),
            Field::U64(x.basic.times[1]),
            Field::U64(x.basic.times[2]),
            Field::U64(x.basic.times[3]),
            Field::U32(x.basic.attributes),
            Field::Any32(0),
            Field::U64(x.standard.allocation_size),
            Field::U64(x.standard.end_of_file),
            Field::U32(x.standard.links),
            Field::U8(x.standard.delete_pending),
            Field::U8(x.standard.directory),
            Field::Any16(0),
            Field::U64(x.internal.number),
            Field::U32(x.ea_size),
            Field::U32(x.access),
            Field::U64(x.position),
            Field::U32(x.mode),
            Field::U32(x.alignment),
            Field::Any32(0),
        ],
        &[],
    )
}
