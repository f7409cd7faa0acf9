//! The calls that begin with a descriptor: word 0 is the lane, word 1 the name of the call, and the arguments begin with word 2.

ghost use Rattle.std.specs.Prelude.{◌≡◌};
ghost use Rattle.fs_script.specs.Words.{words_of, IsRead};
ghost use Rattle.fs_script.specs.Calls.{call_of};

use crate::argument::{data, descriptor, exclusive, offset};
use crate::call_name::CallName;
use crate::line::LineFault;
use crate::words::only;
use fs_types::Call;
use std::alloc::Global;

// `dup FD`.
pub(crate) fn dup(line: &str) -> Result<Call, LineFault>
    ensures { result ≡ call_of CallName.Dup (words_of line.now) }
{
    let fd = descriptor(line, 2)?;
    only(line, 3)?;
    Ok(Call::Dup(fd))
}

// `close FD`.
pub(crate) fn close(line: &str) -> Result<Call, LineFault>
    ensures { result ≡ call_of CallName.Close (words_of line.now) }
{
    let fd = descriptor(line, 2)?;
    only(line, 3)?;
    Ok(Call::Close(fd))
}

// `fsync FD`.
pub(crate) fn fsync(line: &str) -> Result<Call, LineFault>
    ensures { result ≡ call_of CallName.Fsync (words_of line.now) }
{
    let fd = descriptor(line, 2)?;
    only(line, 3)?;
    Ok(Call::Fsync(fd))
}

// `ftruncate FD LEN`.
pub(crate) fn ftruncate(line: &str) -> Result<Call, LineFault>
    ensures { result ≡ call_of CallName.Ftruncate (words_of line.now) }
{
    let fd = descriptor(line, 2)?;
    let size = offset(line, 3)?;
    only(line, 4)?;
    Ok(Call::Ftruncate(fd, size))
}

// `pread FD OFF LEN`.
pub(crate) fn pread(line: &str) -> Result<Call, LineFault>
    ensures { result ≡ call_of CallName.Pread (words_of line.now) }
{
    let fd = descriptor(line, 2)?;
    let from = offset(line, 3)?;
    let length = offset(line, 4)?;
    only(line, 5)?;
    Ok(Call::Pread(fd, from, length))
}

// `read FD LEN`.
pub(crate) fn read(line: &str) -> Result<Call, LineFault>
    ensures { result ≡ call_of CallName.Read (words_of line.now) }
{
    let fd = descriptor(line, 2)?;
    let length = offset(line, 3)?;
    only(line, 4)?;
    Ok(Call::Read(fd, length))
}

// `pwrite FD OFF HEX`.
pub(crate) fn pwrite(alloc: Global, line: &str) -> Result<Call, LineFault>
    ensures { IsRead (call_of CallName.Pwrite (words_of line.now)) result }
{
    let fd = descriptor(line, 2)?;
    let from = offset(line, 3)?;
    let bytes = data(alloc, line, 4)?;
    only(line, 5)?;
    Ok(Call::Pwrite(fd, from, bytes))
}

// `write FD HEX`.
pub(crate) fn write(alloc: Global, line: &str) -> Result<Call, LineFault>
    ensures { IsRead (call_of CallName.Write (words_of line.now)) result }
{
    let fd = descriptor(line, 2)?;
    let bytes = data(alloc, line, 3)?;
    only(line, 4)?;
    Ok(Call::Write(fd, bytes))
}

// `append FD HEX`.
pub(crate) fn append(alloc: Global, line: &str) -> Result<Call, LineFault>
    ensures { IsRead (call_of CallName.Append (words_of line.now)) result }
{
    let fd = descriptor(line, 2)?;
    let bytes = data(alloc, line, 3)?;
    only(line, 4)?;
    Ok(Call::Append(fd, bytes))
}

// `seek FD OFF`.
pub(crate) fn seek(line: &str) -> Result<Call, LineFault>
    ensures { result ≡ call_of CallName.Seek (words_of line.now) }
{
    let fd = descriptor(line, 2)?;
    let to = offset(line, 3)?;
    only(line, 4)?;
    Ok(Call::Seek(fd, to))
}

// `fstat FD`.
pub(crate) fn fstat(line: &str) -> Result<Call, LineFault>
    ensures { result ≡ call_of CallName.Fstat (words_of line.now) }
{
    let fd = descriptor(line, 2)?;
    only(line, 3)?;
    Ok(Call::Fstat(fd))
}

// `lock FD OFF LEN s` or `x`.
pub(crate) fn lock(line: &str) -> Result<Call, LineFault>
    ensures { result ≡ call_of CallName.Lock (words_of line.now) }
{
    let fd = descriptor(line, 2)?;
    let from = offset(line, 3)?;
    let length = offset(line, 4)?;
    let whole = exclusive(line, 5)?;
    only(line, 6)?;
    Ok(Call::Lock(fd, from, length, whole))
}

// `unlock FD OFF LEN`.
pub(crate) fn unlock(line: &str) -> Result<Call, LineFault>
    ensures { result ≡ call_of CallName.Unlock (words_of line.now) }
{
    let fd = descriptor(line, 2)?;
    let from = offset(line, 3)?;
    let length = offset(line, 4)?;
    only(line, 5)?;
    Ok(Call::Unlock(fd, from, length))
}
