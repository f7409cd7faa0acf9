//! What lies beneath a directory.

ghost use Rattle.std.specs.Prelude.{◌≡◌};
ghost use Rattle.share_state.specs.Tree.{is_beneath, is_entry_beneath};

use share_state::Entry;

/// A node lies beneath a directory, at most as many levels down as `levels` is long.
pub fn is_beneath(levels: &[Entry], entries: &[Entry], directory: u64, node: u64) -> bool
    ensures { result ≡ is_beneath levels.now entries.now directory node }
{
    let Some((_, fewer)) = levels.split_first() else {
        return false;
    };
    for entry in entries {
        if entry.node == node
            && (entry.directory == directory
                || is_beneath(fewer, entries, directory, entry.directory))
        {
            return true;
        }
    }
    false
}

/// An entry lies beneath a directory: it is in it, or in a directory beneath it.
pub fn is_entry_beneath(entries: &[Entry], directory: u64, number: u64) -> bool
    ensures { result ≡ is_entry_beneath entries.now directory number }
{
    entries.iter().any(|entry| {
        entry.number == number
            && (entry.directory == directory
                || is_beneath(entries, entries, directory, entry.directory))
    })
}
