//! The other calls: most begin with a path.

ghost use Rattle.std.specs.Prelude.{◌≡◌};
ghost use Rattle.fs_script.specs.Words.{words_of, IsRead};
ghost use Rattle.fs_script.specs.Calls.{call_of};

use crate::argument::{flags, mode, path, target};
use crate::call_name::CallName;
use crate::line::LineFault;
use crate::words::only;
use fs_types::Call;
use std::alloc::Global;

// `open PATH FLAGS`.
pub(crate) fn open(alloc: Global, line: &str) -> Result<Call, LineFault>
    ensures { IsRead (call_of CallName.Open (words_of line.now)) result }
{
    let at = path(alloc, line, 2)?;
    let how = flags(line, 3)?;
    only(line, 4)?;
    Ok(Call::Open(at, how))
}

// `stat PATH`.
pub(crate) fn stat(alloc: Global, line: &str) -> Result<Call, LineFault>
    ensures { IsRead (call_of CallName.Stat (words_of line.now)) result }
{
    let at = path(alloc, line, 2)?;
    only(line, 3)?;
    Ok(Call::Stat(at))
}

// `lstat PATH`.
pub(crate) fn lstat(alloc: Global, line: &str) -> Result<Call, LineFault>
    ensures { IsRead (call_of CallName.Lstat (words_of line.now)) result }
{
    let at = path(alloc, line, 2)?;
    only(line, 3)?;
    Ok(Call::Lstat(at))
}

// `unlink PATH`.
pub(crate) fn unlink(alloc: Global, line: &str) -> Result<Call, LineFault>
    ensures { IsRead (call_of CallName.Unlink (words_of line.now)) result }
{
    let at = path(alloc, line, 2)?;
    only(line, 3)?;
    Ok(Call::Unlink(at))
}

// `rmdir PATH`.
pub(crate) fn rmdir(alloc: Global, line: &str) -> Result<Call, LineFault>
    ensures { IsRead (call_of CallName.Rmdir (words_of line.now)) result }
{
    let at = path(alloc, line, 2)?;
    only(line, 3)?;
    Ok(Call::Rmdir(at))
}

// `mkdir PATH`.
pub(crate) fn mkdir(alloc: Global, line: &str) -> Result<Call, LineFault>
    ensures { IsRead (call_of CallName.Mkdir (words_of line.now)) result }
{
    let at = path(alloc, line, 2)?;
    only(line, 3)?;
    Ok(Call::Mkdir(at))
}

// `rename OLD NEW`.
pub(crate) fn rename(alloc: Global, line: &str) -> Result<Call, LineFault>
    ensures { IsRead (call_of CallName.Rename (words_of line.now)) result }
{
    let old = path(alloc, line, 2)?;
    let new = path(alloc, line, 3)?;
    only(line, 4)?;
    Ok(Call::Rename(old, new))
}

// `link OLD NEW`.
pub(crate) fn link(alloc: Global, line: &str) -> Result<Call, LineFault>
    ensures { IsRead (call_of CallName.Link (words_of line.now)) result }
{
    let old = path(alloc, line, 2)?;
    let new = path(alloc, line, 3)?;
    only(line, 4)?;
    Ok(Call::Link(old, new))
}

// `symlink TARGET PATH`.
pub(crate) fn symlink(alloc: Global, line: &str) -> Result<Call, LineFault>
    ensures { IsRead (call_of CallName.Symlink (words_of line.now)) result }
{
    let to = target(alloc, line, 2)?;
    let at = path(alloc, line, 3)?;
    only(line, 4)?;
    Ok(Call::Symlink(to, at))
}

// `readlink PATH`.
pub(crate) fn readlink(alloc: Global, line: &str) -> Result<Call, LineFault>
    ensures { IsRead (call_of CallName.Readlink (words_of line.now)) result }
{
    let at = path(alloc, line, 2)?;
    only(line, 3)?;
    Ok(Call::Readlink(at))
}

// `list PATH`.
pub(crate) fn list(alloc: Global, line: &str) -> Result<Call, LineFault>
    ensures { IsRead (call_of CallName.List (words_of line.now)) result }
{
    let at = path(alloc, line, 2)?;
    only(line, 3)?;
    Ok(Call::List(at))
}

// `chmod PATH MODE`.
pub(crate) fn chmod(alloc: Global, line: &str) -> Result<Call, LineFault>
    ensures { IsRead (call_of CallName.Chmod (words_of line.now)) result }
{
    let at = path(alloc, line, 2)?;
    let bits = mode(line, 3)?;
    only(line, 4)?;
    Ok(Call::Chmod(at, bits))
}

// `statfs`.
pub(crate) fn statfs(line: &str) -> Result<Call, LineFault>
    ensures { result ≡ call_of CallName.Statfs (words_of line.now) }
{
    only(line, 2)?;
    Ok(Call::Statfs)
}
