//! Trees that are read from stored nodes.
ghost use Rattle.std.specs.Prelude.{◌≡◌, ◌≤◌, ◌<◌, ◌^◌, IfOk, length, map};
ghost use Rattle.ray_stated.specs.Carried.{node_of, nodes_from, IsRead};

use crate::apart::are_apart;
use crate::stored::StoredNode;
use crate::tree_fault::TreeFault;
use crate::walk::is_preorder;
use ray_geom::Box3;
use ray_tree::{NoMemory, Node, Tree, is_over};
use std::alloc::Global;

// The node that is stored under a number.
fn plain_node(n: u32, stored: StoredNode) -> Node
    requires { n < 2 ^ 21 }
    ensures { result ≡ node_of n stored }
{
    if stored.count == 0 {
        Node::Inner {
            left: n + 1,
            right: stored.link,
        }
    } else {
        Node::Leaf {
            first: stored.link,
            count: stored.count,
        }
    }
}

// All nodes that are stored.
fn plain_nodes(alloc: Global, stored: &[StoredNode]) -> Result<Vec<Node>, NoMemory>
    requires { length stored.now ≤ 2 ^ 21 }
    ensures { IfOk result (λ v. v.items ≡ nodes_from 0 stored.now) }
{
    let mut nodes = Vec::with_capacity(alloc, stored.len())?;
    for i in 0..stored.len() {
        nodes.push(plain_node(i as u32, stored[i]))?;
    }
    Ok(nodes)
}

// Their boxes.
fn stored_boxes(alloc: Global, stored: &[StoredNode]) -> Result<Vec<Box3>, NoMemory>
    ensures { IfOk result (λ v. v.items ≡ map (λ s. s.bounds) stored.now) }
{
    stored.iter().map(|s| s.bounds).collect(alloc)
}

/// The tree over items, which are at most 2^20, that stored nodes and an order carry: they are its
/// spelling in preorder, the root being node 0, a left child the next node, and the leaves' places
/// following each other; it has at most 96 levels. What they say may be anything: it takes at most
/// two steps for each item, and never goes down further than 96 levels. (Own.)
///
/// # Errors
///
/// NotTree exactly where they carry no tree over the items, and NoMemory for want of memory alone.
pub fn tree_of(
    alloc: Global,
    nodes: &[StoredNode],
    order: &[u32],
    items: &[Option<Box3>],
) -> Result<Tree, TreeFault>
    requires { length items.now ≤ 2 ^ 20 }
    ensures { IsRead nodes.now order.now items.now result }
{
    if nodes.len() > 2 * items.len() {
        return Err(TreeFault::NotTree);
    }
    let plain = plain_nodes(alloc, nodes)?;
    if !is_preorder(&plain, order.len()) {
        return Err(TreeFault::NotTree);
    }
    let apart = are_apart(alloc, items.len(), order)?;
    if !apart {
        return Err(TreeFault::NotTree);
    }
    let boxes = stored_boxes(alloc, nodes)?;
    if !is_over(&plain, &boxes, order, items) {
        return Err(TreeFault::NotTree);
    }
    let numbers = Vec::from_slice(alloc, order)?;
    let tree = Tree::of_parts(alloc, plain, boxes, numbers, items)?;
    Ok(tree)
}
