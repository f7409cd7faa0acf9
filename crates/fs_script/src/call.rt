//! The call that a line asks for.

ghost use Rattle.fs_script.specs.Words.{words_of, IsRead};
ghost use Rattle.fs_script.specs.Calls.{call_of};

use crate::call_name::CallName;
use crate::line::LineFault;
use crate::{by_descriptor, by_path};
use fs_types::Call;
use std::alloc::Global;

// The call with this name that the words of a line make.
pub(crate) fn call_of(alloc: Global, name: CallName, line: &str) -> Result<Call, LineFault>
    ensures { IsRead (call_of name (words_of line.now)) result }
{
    match name {
        CallName::Open => by_path::open(alloc, line),
        CallName::Dup => by_descriptor::dup(line),
        CallName::Close => by_descriptor::close(line),
        CallName::Fsync => by_descriptor::fsync(line),
        CallName::Ftruncate => by_descriptor::ftruncate(line),
        CallName::Pread => by_descriptor::pread(line),
        CallName::Read => by_descriptor::read(line),
        CallName::Pwrite => by_descriptor::pwrite(alloc, line),
        CallName::Write => by_descriptor::write(alloc, line),
        CallName::Append => by_descriptor::append(alloc, line),
        CallName::Seek => by_descriptor::seek(line),
        CallName::Fstat => by_descriptor::fstat(line),
        CallName::Stat => by_path::stat(alloc, line),
        CallName::Lstat => by_path::lstat(alloc, line),
        CallName::Unlink => by_path::unlink(alloc, line),
        CallName::Rmdir => by_path::rmdir(alloc, line),
        CallName::Mkdir => by_path::mkdir(alloc, line),
        CallName::Rename => by_path::rename(alloc, line),
        CallName::Link => by_path::link(alloc, line),
        CallName::Symlink => by_path::symlink(alloc, line),
        CallName::Readlink => by_path::readlink(alloc, line),
        CallName::List => by_path::list(alloc, line),
        CallName::Chmod => by_path::chmod(alloc, line),
        CallName::Lock => by_descriptor::lock(line),
        CallName::Unlock => by_descriptor::unlock(line),
        CallName::Statfs => by_path::statfs(line),
    }
}
