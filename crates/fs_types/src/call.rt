//! The calls of a script.

ghost use Rattle.std.specs.Prelude.{◌≡◌, IfOk};

use smb_base::{Bytes, NoMemory, Text};
use std::alloc::Global;

/// The number of a descriptor. `open` and `dup` take the least that is free, from 0 on.
#[derive(Clone, Copy, Debug, PartialEq, Eq)]
pub struct Fd(pub u32);

/// One call, with its arguments in the order of its script line. A path is absolute within the share, in UTF-8, and begins with a
/// slash. Offsets and lengths are in bytes.
#[derive(Debug, Drop)]
pub enum Call {
    /// Opens the file at a path. The flags are a sum: 1 for reading, 2 for writing, 4 to create what is missing, 12 to create and
    /// to refuse what is there, 16 to cut the file to no byte.
    Open(Text, u8),
    /// A second descriptor of the same open description.
    Dup(Fd),
    /// Gives a descriptor up.
    Close(Fd),
    /// Has every byte that was written reach the share's disk.
    Fsync(Fd),
    /// Makes the file this long.
    Ftruncate(Fd, u64),
    /// Reads at an offset (second) at most so many bytes (third), and leaves the shared offset alone.
    Pread(Fd, u64, u64),
    /// Reads at the shared offset at most so many bytes, and moves it by what was read.
    Read(Fd, u64),
    /// Writes bytes at an offset, and leaves the shared offset alone.
    Pwrite(Fd, u64, Bytes),
    /// Writes bytes at the shared offset, and moves it by what was written.
    Write(Fd, Bytes),
    /// Writes bytes at the end of the file, and leaves the shared offset behind them.
    Append(Fd, Bytes),
    /// Sets the shared offset.
    Seek(Fd, u64),
    /// What is known of an open file.
    Fstat(Fd),
    /// What is known of the file or directory at a path; a link is followed.
    Stat(Text),
    /// The same, but a link is shown as a link.
    Lstat(Text),
    /// Removes the name of a file.
    Unlink(Text),
    /// Removes an empty directory.
    Rmdir(Text),
    /// Makes a directory.
    Mkdir(Text),
    /// Gives what has the first path the second one; a file that has it is replaced.
    Rename(Text, Text),
    /// Gives the file at the first path the second one too.
    Link(Text, Text),
    /// Makes a link to a target (first) at a path (second).
    Symlink(Text, Text),
    /// The target of a link.
    Readlink(Text),
    /// The names in a directory.
    List(Text),
    /// Sets the mode of a file or directory: the nine bits for owner, group and others.
    Chmod(Text, u16),
    /// Locks the range from an offset (second) over so many bytes (third), exclusive (`x`) where the flag is true, else shared (`s`).
    Lock(Fd, u64, u64, bool),
    /// Gives a locked range up, from an offset over so many bytes.
    Unlock(Fd, u64, u64),
    /// The room of the share.
    Statfs,
}

fn text(alloc: Global, text: &Text) -> Result<Text, NoMemory>
    ensures { IfOk result (λ t. t ≡ text.now) }
{
    Text::of(alloc, text.as_str())
}

fn bytes(alloc: Global, bytes: &Bytes) -> Result<Bytes, NoMemory>
    ensures { IfOk result (λ b. b ≡ bytes.now) }
{
    Bytes::of(alloc, bytes.as_slice())
}

impl Call {
    /// A copy of this call. It fails only for want of memory.
    pub fn copied(&self, alloc: Global) -> Result<Call, NoMemory>
        ensures { IfOk result (λ c. c ≡ self.now) }
    {
        Ok(match self {
            Call::Open(path, flags) => Call::Open(text(alloc, path)?, *flags),
            Call::Dup(fd) => Call::Dup(*fd),
            Call::Close(fd) => Call::Close(*fd),
            Call::Fsync(fd) => Call::Fsync(*fd),
            Call::Ftruncate(fd, size) => Call::Ftruncate(*fd, *size),
            Call::Pread(fd, offset, length) => Call::Pread(*fd, *offset, *length),
            Call::Read(fd, length) => Call::Read(*fd, *length),
            Call::Pwrite(fd, offset, data) => Call::Pwrite(*fd, *offset, bytes(alloc, data)?),
            Call::Write(fd, data) => Call::Write(*fd, bytes(alloc, data)?),
            Call::Append(fd, data) => Call::Append(*fd, bytes(alloc, data)?),
            Call::Seek(fd, offset) => Call::Seek(*fd, *offset),
            Call::Fstat(fd) => Call::Fstat(*fd),
            Call::Stat(path) => Call::Stat(text(alloc, path)?),
            Call::Lstat(path) => Call::Lstat(text(alloc, path)?),
            Call::Unlink(path) => Call::Unlink(text(alloc, path)?),
            Call::Rmdir(path) => Call::Rmdir(text(alloc, path)?),
            Call::Mkdir(path) => Call::Mkdir(text(alloc, path)?),
            Call::Rename(old, new) => Call::Rename(text(alloc, old)?, text(alloc, new)?),
            Call::Link(old, new) => Call::Link(text(alloc, old)?, text(alloc, new)?),
            Call::Symlink(target, path) => Call::Symlink(text(alloc, target)?, text(alloc, path)?),
            Call::Readlink(path) => Call::Readlink(text(alloc, path)?),
            Call::List(path) => Call::List(text(alloc, path)?),
            Call::Chmod(path, mode) => Call::Chmod(text(alloc, path)?, *mode),
            Call::Lock(fd, offset, length, exclusive) => {
                Call::Lock(*fd, *offset, *length, *exclusive)
            }
            Call::Unlock(fd, offset, length) => Call::Unlock(*fd, *offset, *length),
            Call::Statfs => Call::Statfs,
        })
    }
}
