//! The options of a run.

/// The options of a run, after those of mount.cifs(8).
#[derive(Clone, Copy, Debug, PartialEq, Eq)]
pub struct Options {
    /// Leases are asked for, and what they protect is kept (`cache=strict`); else every call goes to the server (`cache=none`).
    pub strict: bool,
    /// Characters that no name on the share may have are sent as others that stand for them (`mapposix`).
    pub mapposix: bool,
    /// Links are kept as files of a form of their own, and followed (`mfsymlinks`).
    pub mfsymlinks: bool,
    /// No lock is sent to the server (`nobrl`).
    pub nobrl: bool,
    /// Nothing on the share is changed (`ro`).
    pub ro: bool,
    /// The mode that is shown of a file, at most 07777.
    pub file_mode: u16,
    /// The mode that is shown of a directory, at most 07777.
    pub dir_mode: u16,
    /// The most bytes that one request reads, 4,096 to 262,144.
    pub rsize: u32,
    /// The most bytes that one request writes, 4,096 to 262,144.
    pub wsize: u32,
    /// How many seconds a close may be put off, 0 to 60.
    pub closetimeo: u32,
    /// How many more times a connect that failed is tried, 0 to 16.
    pub retries: u32,
    /// How many silences in a row are borne while a request is unanswered, 1 to 10,000.
    pub patience: u32,
}
