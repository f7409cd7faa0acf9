//! The classes of information that a file, a directory or a file system is asked for or given (MS-FSCC 2.4 and 2.5). Each is read
//! from the bytes of the information alone, and appended to bytes.
#![tactic(auto)]

mod attributes;
mod change;
mod entries;
mod fault;
mod space;

pub use attributes::{
    All, Basic, Internal, Standard, read_all, read_basic, read_internal, read_standard, write_all,
    write_basic, write_internal, write_standard,
};
pub use change::{
    Disposition, EndOfFile, Link, Rename, read_disposition, read_end_of_file, read_link,
    read_rename, write_disposition, write_end_of_file, write_link, write_rename,
};
pub use entries::{
    DirEntry, Entries, IdFullDirectory, read_id_full_directory, write_id_full_directory,
};
pub use fault::InfoFault;
pub use space::{FsFullSize, read_fs_full_size, write_fs_full_size};
