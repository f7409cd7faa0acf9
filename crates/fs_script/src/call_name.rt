//! The names of the calls.

ghost use Rattle.std.specs.Prelude.{◌≡◌, IfErr};
ghost use Rattle.fs_script.specs.Calls.{name_of};

use crate::line::LineFault;

/// A call, without its arguments.
#[derive(Clone, Copy)]
pub(crate) enum CallName {
    Open,
    Dup,
    Close,
    Fsync,
    Ftruncate,
    Pread,
    Read,
    Pwrite,
    Write,
    Append,
    Seek,
    Fstat,
    Stat,
    Lstat,
    Unlink,
    Rmdir,
    Mkdir,
    Rename,
    Link,
    Symlink,
    Readlink,
    List,
    Chmod,
    Lock,
    Unlock,
    Statfs,
}

// The call that a word names.
pub(crate) fn name_of(word: &str) -> Result<CallName, LineFault>
    ensures name { result ≡ name_of word.now }
    ensures fault { IfErr result (λ fault. fault ≡ LineFault.Word) }
{
    match word {
        "open" => Ok(CallName::Open),
        "dup" => Ok(CallName::Dup),
        "close" => Ok(CallName::Close),
        "fsync" => Ok(CallName::Fsync),
        "ftruncate" => Ok(CallName::Ftruncate),
        "pread" => Ok(CallName::Pread),
        "read" => Ok(CallName::Read),
        "pwrite" => Ok(CallName::Pwrite),
        "write" => Ok(CallName::Write),
        "append" => Ok(CallName::Append),
        "seek" => Ok(CallName::Seek),
        "fstat" => Ok(CallName::Fstat),
        "stat" => Ok(CallName::Stat),
        "lstat" => Ok(CallName::Lstat),
        "unlink" => Ok(CallName::Unlink),
        "rmdir" => Ok(CallName::Rmdir),
        "mkdir" => Ok(CallName::Mkdir),
        "rename" => Ok(CallName::Rename),
        "link" => Ok(CallName::Link),
        "symlink" => Ok(CallName::Symlink),
        "readlink" => Ok(CallName::Readlink),
        "list" => Ok(CallName::List),
        "chmod" => Ok(CallName::Chmod),
        "lock" => Ok(CallName::Lock),
        "unlock" => Ok(CallName::Unlock),
        "statfs" => Ok(CallName::Statfs),
        _ => Err(LineFault::Word),
    }
}
