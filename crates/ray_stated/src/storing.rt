ghost use Rattle.std.specs.Prelude.{◌≡◌, IfOk};
ghost use Rattle.ray_stated.specs.Stored.{stored_of, stored_all};

use crate::stored::StoredNode;
use ray_geom::Box3;
use ray_tree::{NoMemory, Node, Tree};
use std::alloc::Global;

// A node with its box as it is stored.
fn stored_node(node: Node, bounds: Box3) -> StoredNode
    ensures { result ≡ stored_of node bounds }
{
    match node {
        Node::Leaf { first, count } => StoredNode {
            bounds,
            count,
            link: first,
        },
        Node::Inner { right, .. } => StoredNode {
            bounds,
            count: 0,
            link: right,
        },
    }
}

/// The nodes of a tree as they are stored, in their order. With the order of its items they carry
/// the tree where its nodes are in preorder, and so they do of a stated tree. (Own.)
///
/// # Errors
///
/// For want of memory alone.
pub fn store(alloc: Global, tree: &Tree) -> Result<Vec<StoredNode>, NoMemory>
    ensures { IfOk result (λ v. v.items ≡ stored_all tree.now.nodes tree.now.boxes) }
{
    tree.shape();
    let mut stored = Vec::with_capacity(alloc, tree.nodes() as usize)?;
    for i in 0..tree.nodes() {
        stored.push(stored_node(tree.node(i), tree.node_box(i)))?;
    }
    Ok(stored)
}
