//! The parents of all nodes of a tree.
ghost use Rattle.std.specs.Prelude.{◌≡◌, ◌<◌, IfOk, length};
ghost use Rattle.ray_climb.specs.Ready.{AreParents, HasKidsBelow, marked};

use ray_tree::{Node, Tree};
use std::alloc::{AllocError as NoMemory, Global};

// The parent of each node but the root.
pub(crate) fn parents_of(alloc: Global, tree: &Tree) -> Result<Vec<u32>, NoMemory>
    ensures { IfOk result (λ v. AreParents tree.now v.items) }
{
    let mut parents = vec![in alloc; 0u32; tree.nodes() as usize]?;
    mark_all(tree, parents.as_mut_slice());
    Ok(parents)
}

// Sets them, node after node.
fn mark_all(tree: &Tree, parents: &mut [u32])
    requires { length parents.old ≡ length tree.now.nodes }
    ensures { AreParents tree.now parents.new }
{
    tree.shape();
    for n in 0..tree.nodes() {
        mark(parents, tree.node(n), n);
    }
}

// Sets that of a node's children.
fn mark(parents: &mut [u32], node: Node, n: u32)
    requires { HasKidsBelow (length parents.old) node }
    ensures { parents.new ≡ marked parents.old node n }
{
    match node {
        Node::Leaf { first: _, count: _ } => {}
        Node::Inner { left, right } => {
            parents[left as usize] = n;
            parents[right as usize] = n;
        }
    }
}
