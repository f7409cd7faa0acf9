//! Which map stands between a name and its wire name.

/// What becomes of the characters that a file name may not have on the wire (MS-FSCC 2.1.5).
#[derive(Clone, Copy, Debug, PartialEq, Eq)]
pub enum NameMap {
    /// Each of them is written as a character of the private range U+F001 to U+F029, as mount.cifs(8) does under `mapposix`.
    Sfm,
    /// A name that has one of them is refused.
    Plain,
}
