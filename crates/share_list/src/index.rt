//! What the nodes are, by their numbers.

ghost use Rattle.std.specs.Prelude.{◌≡◌, IfOk};
ghost use Rattle.std.specs.BTreeMap as tree;
ghost use Rattle.std.specs.Ordering.{nat_cmp};
ghost use Rattle.share_list.specs.Index.{IsIndexOf, facts_of, with_node};

use share_state::Node;
use smb_base::NoMemory;
use std::alloc::Global;
use std::collections::BTreeMap;

/// What a listing shows of a node beside its name.
#[derive(Clone, Copy)]
pub(crate) struct Facts {
    /// It is a directory.
    pub(crate) dir: bool,
    /// How many bytes it has.
    pub(crate) size: u64,
    /// It is read-only.
    pub(crate) read_only: bool,
}

// What is known of a number once one more node has it.
fn with_node(known: Option<Facts>, node: &Node) -> Facts
    ensures { result ≡ with_node known node.now }
{
    match known {
        Some(facts) => Facts {
            dir: facts.dir || node.dir,
            size: facts.size,
            read_only: facts.read_only || node.read_only,
        },
        None => Facts {
            dir: node.dir,
            size: node.bytes.len() as u64,
            read_only: node.read_only,
        },
    }
}

// The index of nodes.
pub(crate) fn index_of(alloc: Global, nodes: &[Node]) -> Result<BTreeMap<u64, Facts>, NoMemory>
    ensures { IfOk result (λ index. IsIndexOf nodes.now index) }
{
    let mut index = BTreeMap::new(alloc);
    for node in nodes {
        let known = index.get(&node.number).copied();
        index.insert(node.number, with_node(known, node))?;
    }
    Ok(index)
}

// What an index has at a number.
pub(crate) fn facts_at(index: &BTreeMap<u64, Facts>, number: u64) -> Facts
    ensures { result ≡ facts_of (tree.get nat_cmp index.now number) }
{
    match index.get(&number) {
        Some(facts) => *facts,
        None => Facts {
            dir: false,
            size: 0,
            read_only: false,
        },
    }
}
