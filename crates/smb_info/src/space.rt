//! What a file system is asked for (MS-FSCC 2.5).

ghost use Rattle.std.specs.Prelude.{◌≡◌, [], IsOk};
ghost use Rattle.smb_field.specs.Structure.{WritesStructure};
ghost use Rattle.smb_info.specs.Reading.{ReadsInfo};
ghost use Rattle.smb_info.specs.Space.{fs_full_size, IsFsFullSize, fs_full_size_of};
ghost use Rattle.smb_info.specs.declared.space.FsFullSize.{FsFullSize};

use crate::fault::InfoFault;
use smb_base::NoMemory;
use smb_field::{Field, put_structure};
use smb_le::{get_u32, get_u64};

/// Class 7 of a file system: how much room it has, in units of allocation (MS-FSCC 2.5, FileFsFullSizeInformation).
#[derive(Drop)]
pub struct FsFullSize {
    /// All units.
    pub total: u64,
    /// The units that are free for the caller.
    pub caller_free: u64,
    /// The units that are free.
    pub actual_free: u64,
    /// How many sectors a unit has.
    pub sectors_per_unit: u32,
    /// How many bytes a sector has.
    pub bytes_per_sector: u32,
}

/// Reads the sizes of a file system. It takes no memory.
///
/// # Errors
///
/// [`InfoFault::Short`] exactly where there are fewer than 32 bytes.
#[tactic(auto, unfolding(crate::specs::Space::fs_full_size_of))]
pub fn read_fs_full_size(info: &[u8]) -> Result<FsFullSize, InfoFault>
    ensures exact { result ≡ fs_full_size_of info.now }
    ensures reads { ReadsInfo 32 (λ (x : FsFullSize). IsFsFullSize x info.now) ⊥ info.now result }
    ensures only { (x : FsFullSize) → IsFsFullSize x info.now → IsOk result }
{
    if info.len() < 32 {
        return Err(InfoFault::Short);
    }
    Ok(FsFullSize {
        total: get_u64(info, 0),
        caller_free: get_u64(info, 8),
        actual_free: get_u64(info, 16),
        sectors_per_unit: get_u32(info, 24),
        bytes_per_sector: get_u32(info, 28),
    })
}

/// Appends the sizes of a file system. For want of memory nothing is changed.
pub fn write_fs_full_size(out: &mut Vec<u8>, x: &FsFullSize) -> Result<(), NoMemory>
    ensures { WritesStructure (fs_full_size x.now) [] out.old.items out.new.items result }
{
    put_structure(
        out,
        32,
        &[
            Field::U64(x.total),
            Field::U64(x.caller_free),
            Field::U64(x.actual_free),
            Field::U32(x.sectors_per_unit),
            Field::U32(x.bytes_per_sector),
        ],
        &[],
    )
}
