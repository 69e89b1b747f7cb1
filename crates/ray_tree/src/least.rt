//! The least boxes of nodes.
ghost use Rattle.std.specs.Prelude.{◌≡◌, ◌<◌, ◌≤◌, ◌+◌, ◌↔◌, IsTrue, Some, length};
ghost use Rattle.std.specs.List.{All};
ghost use Rattle.ray_geom.specs.LeastBoxes.{HoldsBoxes, IsLeast};
ghost use Rattle.ray_tree.specs.Trees.{item_box, boxes_of, boxes_in};
ghost use Rattle.ray_tree.specs.Local.{IsActive, IsFit, IsLocal, IsLocalAt, AreLocal, AreFit};

use crate::node::Node;
use ray_geom::Box3;

// The box of an active item.
fn bounds_of(items: &[Option<Box3>], p: u32) -> Box3
    requires { IsActive items.now p }
    ensures { item_box items.now p ≡ Some result }
{
    items[p as usize].unwrap()
}

// The least box of active items.
fn least_of(items: &[Option<Box3>], numbers: &[u32]) -> Box3
    requires some { 0 < length numbers.now }
    requires active { All (IsActive items.now) numbers.now }
    ensures { IsLeast (HoldsBoxes (boxes_of items.now numbers.now)) result }
{
    let mut least = bounds_of(items, numbers[0]);
    for i in 1..numbers.len() {
        least = least.union(&bounds_of(items, numbers[i]));
    }
    least
}

/// The least box of the items of a leaf, which are those of so many places from the first on. (Own.)
pub fn least_in(items: &[Option<Box3>], order: &[u32], first: usize, count: usize) -> Box3
    requires some { 0 < count }
    requires within { first + count ≤ length order.now }
    requires active { All (IsActive items.now) order.now }
    ensures { IsLeast (HoldsBoxes (boxes_in items.now order.now first count)) result }
{
    let numbers = &order[first..];
    least_of(items, &numbers[..count])
}

// The box of a node, by those of its children where it isn't a leaf.
pub(crate) fn box_by(items: &[Option<Box3>], order: &[u32], boxes: &[Box3], node: Node) -> Box3
    requires active { All (IsActive items.now) order.now }
    requires fit { IsFit (length order.now) (length boxes.now) node }
    ensures { IsLocal items.now order.now boxes.now result node }
{
    match node {
        Node::Leaf { first, count } => least_in(items, order, first as usize, count as usize),
        Node::Inner { left, right } => boxes[left as usize].union(&boxes[right as usize]),
    }
}

// Whether the box of a node is so.
fn is_least(items: &[Option<Box3>], order: &[u32], boxes: &[Box3], nodes: &[Node], n: usize) -> bool
    requires active { All (IsActive items.now) order.now }
    requires boxed { length boxes.now ≡ length nodes.now }
    requires fit { AreFit (length order.now) nodes.now }
    requires small { n < length nodes.now }
    ensures { IsTrue result ↔ IsLocalAt items.now order.now boxes.now nodes.now n }
{
    boxes[n] == box_by(items, order, boxes, nodes[n])
}

// Whether each box is so.
pub(crate) fn are_least(
    items: &[Option<Box3>],
    order: &[u32],
    boxes: &[Box3],
    nodes: &[Node],
) -> bool
    requires active { All (IsActive items.now) order.now }
    requires boxed { length boxes.now ≡ length nodes.now }
    requires fit { AreFit (length order.now) nodes.now }
    ensures { IsTrue result ↔ AreLocal items.now order.now boxes.now nodes.now }
{
    for n in 0..nodes.len() {
        if !is_least(items, order, boxes, nodes, n) {
            return false;
        }
    }
    true
}
