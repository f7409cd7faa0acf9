//! Where a path leads.

use smb_base::Units;

/// What a path leads to.
#[derive(Clone, Copy)]
pub struct Found {
    /// The number of the node.
    pub node: u64,
    /// The number of the entry, or 0 for the root.
    pub entry: u64,
}

/// Where a path leads.
#[derive(Drop)]
pub enum Place {
    /// Nowhere: a component before the last is missing or no directory.
    NoPath,
    /// To a name that this directory does not have.
    Missing(u64, Units),
    /// To this node.
    There(Found),
}
