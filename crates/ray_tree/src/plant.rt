//! The nodes of a tree by halves, one after the other.
ghost use Rattle.std.specs.Prelude.{◌≡◌, ◌+◌, ◌*◌, ◌^◌, ◌<◌, ◌≤◌, ◌++◌, OnOk, length};
ghost use Rattle.ray_tree.specs.Plans.{halves, spell};

use crate::node::Node;
use std::alloc::AllocError as NoMemory;

// A leaf has at most so many places.
const MOST: u32 = 4;

// Adds the nodes over so many places from the first one on, over at most so many levels.
pub(crate) fn plant(
    nodes: &mut Vec<Node>,
    first: u32,
    count: u32,
    height: u32,
) -> Result<(), NoMemory>
    requires some { 0 < count }
    requires low { count ≤ 4 * 2 ^ height }
    requires within { first + count ≤ 2 ^ 20 }
    requires room { length nodes.old.items + 2 * count ≤ 2 ^ 22 }
    ensures spelled { OnOk result (nodes.new.items ≡ nodes.old.items
        ++ spell (length nodes.old.items) first (halves height count)) }
    ensures sized { OnOk result (length nodes.new.items + 1 ≤ length nodes.old.items + 2 * count) }
{
    let at = nodes.len();
    nodes.push(Node::Leaf { first, count })?;
    if count <= MOST {
        return Ok(());
    }
    let half = (count + 1) / 2;
    plant(nodes, first, half, height - 1)?;
    let right = nodes.len() as u32;
    plant(nodes, first + half, count - half, height - 1)?;
    nodes[at] = Node::Inner {
        left: at as u32 + 1,
        right,
    };
    Ok(())
}
