//! The path of the share.

ghost use Rattle.std.specs.Prelude.{◌≡◌, ◌++◌, IfOk, OnOk};
ghost use Rattle.std.specs.Char.Escape.{encode_utf16};
ghost use Rattle.std.specs.Str.{chars};
ghost use Rattle.smb_names.specs.WireName.{utf16};
ghost use Rattle.fs_core.specs.Path.{share_path};

use smb_base::{NoMemory, Units};
use std::alloc::Global;

/// The unit of a backslash.
const BACKSLASH: u16 = 0x5C;

/// The path of a share, `\\HOST\SHARE`, in units of UTF-16 (MS-SMB2 2.2.9). It fails only for want of memory.
pub(crate) fn share_path(alloc: Global, host: &str, share: &str) -> Result<Units, NoMemory>
    ensures { IfOk result (λ units. units ≡ share_path host.now share.now) }
{
    let mut units = Units::of(alloc, &[BACKSLASH, BACKSLASH])?;
    put_text(&mut units, host)?;
    units.push(BACKSLASH)?;
    put_text(&mut units, share)?;
    Ok(units)
}

// Appends a text in units of UTF-16.
fn put_text(units: &mut Units, text: &str) -> Result<(), NoMemory>
    ensures { OnOk result (units.new ≡ units.old ++ utf16 (chars text.now)) }
{
    for c in text.chars() {
        put_char(units, c)?;
    }
    Ok(())
}

fn put_char(units: &mut Units, c: char) -> Result<(), NoMemory>
    ensures { OnOk result (units.new ≡ units.old ++ encode_utf16 c) }
{
    let mut room = [0; 2];
    units.extend(c.encode_utf16(&mut room))
}
