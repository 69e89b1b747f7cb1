ghost use Rattle.std.specs.Prelude.{ℕ, ◌≡◌, ◌≤◌, ◌^◌, IfOk, length};
ghost use Rattle.ray_tree.specs.Shapes.{levels, AreHalves};
ghost use Rattle.ray_tree.specs.Trees.{TreeOver, active, shape_at, times};
ghost use Rattle.ray_tree.specs.Plans.{median_nodes};

use crate::fill::boxes_over;
use crate::node::Node;
use crate::order::ordered;
use crate::plant::plant;
use crate::tree::Tree;
use ray_geom::Box3;
use std::alloc::{AllocError as NoMemory, Global};

// At most so many levels of inner nodes stand over 2^20 items.
const HEIGHT: u32 = 18;

/// A tree over items, which are at most 2^20, by halves: a node over more than 4 active items has
/// a left child over half of them, rounded up. Which these are is free; here they are apart along
/// the axis along which the middles of the boxes are furthest apart. (Own.)
///
/// # Errors
///
/// For want of memory alone.
pub fn build_median(alloc: Global, items: &[Option<Box3>]) -> Result<Tree, NoMemory>
    requires { length items.now ≤ 2 ^ 20 }
    ensures over { IfOk result (λ t. TreeOver t items.now) }
    ensures halves { IfOk result (λ t. AreHalves (shape_at t 0)) }
    ensures low { IfOk result (λ t. levels (shape_at t 0) ≤ 96) }
{
    let order = ordered(alloc, items)?;
    build_over(alloc, items, order)
}

/// The tree by halves over items, which are at most 2^20, whose active ones stand in this order: it
/// says which of them a left child has, and which a right one. (Own.)
///
/// # Errors
///
/// For want of memory alone.
pub fn build_over(alloc: Global, items: &[Option<Box3>], order: Vec<u32>) -> Result<Tree, NoMemory>
    requires few { length items.now ≤ 2 ^ 20 }
    requires once { (p : ℕ) → times p order.items ≡ active items.now p }
    ensures over { IfOk result (λ t. TreeOver t items.now) }
    ensures halves { IfOk result (λ t. AreHalves (shape_at t 0)) }
    ensures low { IfOk result (λ t. levels (shape_at t 0) ≤ 96) }
    ensures nodes { IfOk result (λ t. t.nodes ≡ median_nodes (length order.items)) }
    ensures order { IfOk result (λ t. t.order ≡ order.items) }
{
    let nodes = nodes_over(alloc, order.len())?;
    let boxes = boxes_over(alloc, items, &order, &nodes)?;
    let tree = Tree::kept(alloc, nodes, boxes, order)?;
    Ok(tree)
}

// The nodes of a tree by halves over so many places.
fn nodes_over(alloc: Global, count: usize) -> Result<Vec<Node>, NoMemory>
    requires { count ≤ 2 ^ 20 }
    ensures { IfOk result (λ v. v.items ≡ median_nodes count) }
{
    // Where leaves are full there is a node to two places.
    let mut nodes = Vec::with_capacity(alloc, count / 2)?;
    if count == 0 {
        return Ok(nodes);
    }
    plant(&mut nodes, 0, count as u32, HEIGHT)?;
    Ok(nodes)
}
