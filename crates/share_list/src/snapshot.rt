//! What a listing of a directory gives in all.

ghost use Rattle.std.specs.Prelude.{◌≡◌, IfOk};
ghost use Rattle.share_state.specs.Listing.{name_of, parent_of, names_in, snapshot_of};
ghost use Rattle.share_list.specs.Index.{IsIndexOf};

use crate::index::{Facts, facts_at, index_of};
use crate::order::sort;
use share_state::{Entry, Share, ShareName, ShareNameList};
use smb_base::{NoMemory, Units};
use std::alloc::Global;
use std::collections::BTreeMap;

const DOT: u16 = 0x2E;

// A node under a name, given an index of the nodes.
fn name_of(
    alloc: Global,
    s: &Share,
    index: &BTreeMap<u64, Facts>,
    name: &[u16],
    node: u64,
) -> Result<ShareName, NoMemory>
    requires index { IsIndexOf s.now.nodes index.now }
    ensures { IfOk result (λ n. n ≡ name_of s.now.nodes name.now node) }
{
    let facts = facts_at(index, node);
    Ok(ShareName {
        name: Units::of(alloc, name)?,
        dir: facts.dir,
        size: facts.size,
        read_only: facts.read_only,
        number: node,
    })
}

// The directory that has a node, the root for the root.
fn parent_of(entries: &[Entry], node: u64) -> u64
    ensures { result ≡ parent_of entries.now node }
{
    for entry in entries {
        if entry.node == node {
            return entry.directory;
        }
    }
    1
}

// The names of a directory, given an index of the nodes.
fn names_in(
    alloc: Global,
    s: &Share,
    index: &BTreeMap<u64, Facts>,
    directory: u64,
) -> Result<Vec<ShareName>, NoMemory>
    requires index { IsIndexOf s.now.nodes index.now }
    ensures { IfOk result (λ names. names.items ≡ names_in s.now directory) }
{
    let mut names = Vec::new(alloc);
    for entry in s.entries.as_slice() {
        if entry.directory == directory {
            names.push(name_of(alloc, s, index, entry.name.as_slice(), entry.node)?)?;
        }
    }
    Ok(names)
}

// What a listing of a directory gives in all.
pub(crate) fn snapshot_of(
    alloc: Global,
    s: &Share,
    directory: u64,
) -> Result<ShareNameList, NoMemory>
    ensures { IfOk result (λ l. l ≡ snapshot_of s.now directory) }
{
    let index = index_of(alloc, s.nodes.as_slice())?;
    let mut names = names_in(alloc, s, &index, directory)?;
    sort(&mut names)?;
    let above = parent_of(s.entries.as_slice(), directory);
    let mut all = Vec::new(alloc);
    all.push(name_of(alloc, s, &index, &[DOT], directory)?)?;
    all.push(name_of(alloc, s, &index, &[DOT, DOT], above)?)?;
    all.append(&mut names)?;
    Ok(ShareNameList::of_vec(all))
}
