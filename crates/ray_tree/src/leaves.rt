//! The leaves of a tree from the left, by a list of the nodes that wait, so that a tree of any
//! number of levels takes no deeper a stack.
ghost use Rattle.std.specs.Prelude.{◌≡◌, IfOk, OnOk, length};
ghost use Rattle.ray_tree.specs.Shapes.{node_at, shape_in, tips};
ghost use Rattle.ray_tree.specs.Waits.{IsStep};

use crate::node::Node;
use std::alloc::{AllocError as NoMemory, Global};

// A node from which the way down is still to be gone, over at most so many levels.
#[derive(Clone, Copy, Debug)]
pub struct Wait {
    pub at: u32,
    pub levels: usize,
}

// The node of a number.
fn node_by(nodes: &[Node], at: u32) -> Node
    ensures { result ≡ node_at nodes.now at }
{
    match nodes.get(at as usize) {
        Some(node) => *node,
        None => Node::Leaf { first: 0, count: 0 },
    }
}

// Adds a node that waited to the leaves if it is one. Else its children wait, the left one last.
fn step_down(
    nodes: &[Node],
    wait: Wait,
    waits: &mut Vec<Wait>,
    leaves: &mut Vec<u32>,
) -> Result<(), NoMemory>
    ensures { OnOk result (IsStep nodes.now wait waits.old.items leaves.old.items
        waits.new.items leaves.new.items) }
{
    if wait.levels == 0 {
        return Ok(());
    }
    let levels = wait.levels - 1;
    match node_by(nodes, wait.at) {
        Node::Leaf { .. } => {
            leaves.push(wait.at)?;
            Ok(())
        }
        Node::Inner { left, right } => {
            waits.push(Wait { at: right, levels })?;
            waits.push(Wait { at: left, levels })?;
            Ok(())
        }
    }
}

// The leaves from the root down.
pub(crate) fn leaves_from_root(alloc: Global, nodes: &[Node]) -> Result<Vec<u32>, NoMemory>
    ensures { IfOk result (λ v. v.items ≡ tips (shape_in (length nodes.now) nodes.now 0)) }
{
    let mut leaves = Vec::new(alloc);
    let mut waits = Vec::new(alloc);
    let levels = nodes.len();
    waits.push(Wait { at: 0, levels })?;
    while let Some(wait) = waits.pop() {
        step_down(nodes, wait, &mut waits, &mut leaves)?;
    }
    Ok(leaves)
}
