//! The least boxes of all nodes of a tree whose children stand after their parents: first those of
//! leaves, by several threads.
ghost use Rattle.std.specs.Prelude.{◌≡◌, ◌<◌, ◌≤◌, ◌+◌, IfOk, Some, length};
ghost use Rattle.std.specs.List.{All};
ghost use Rattle.ray_geom.specs.LeastBoxes.{HoldsBoxes, IsLeast};
ghost use Rattle.ray_tree.specs.Trees.{item_box, boxes_of, boxes_in};
ghost use Rattle.ray_tree.specs.Shapes.{node_at};
ghost use Rattle.ray_tree.specs.Local.{IsActive, AreLocal, AreFit};
ghost use Rattle.ray_tree.specs.Plans.{AreRising};
ghost use Rattle.ray_morton.specs.Tips.{IsTip, AreTips, IsJoin, HasJoin};

use ray_geom::{Box3, Vec3};
use ray_tree::{Node, least_in};
use std::alloc::{AllocError as NoMemory, Global};
use std::thread::{self, Threads};

// Sets the box of a node if it is a leaf.
fn set_leaf(items: &[Option<Box3>], order: &[u32], nodes: &[Node], i: usize, to: &mut Box3)
    requires active { All (IsActive items.now) order.now }
    requires fit { AreFit (length order.now) nodes.now }
    requires small { i < length nodes.now }
    ensures { IsTip items.now order.now to.new (node_at nodes.now i) }
{
    if let Node::Leaf { first, count } = nodes[i] {
        *to = least_in(items, order, first as usize, count as usize);
    }
}

// Sets the boxes of leaves, by so many threads.
fn fill_leaves<R: Threads + Sync>(
    rt: &R,
    threads: usize,
    items: &[Option<Box3>],
    order: &[u32],
    nodes: &[Node],
    boxes: &mut [Box3],
)
    requires threads { 0 < threads }
    requires active { All (IsActive items.now) order.now }
    requires boxed { length boxes.old ≡ length nodes.now }
    requires fit { AreFit (length order.now) nodes.now }
    ensures { AreTips items.now order.now boxes.new nodes.now (length nodes.now) }
{
    thread::for_each_mut(
        rt,
        boxes,
        threads,
        &|i, to| set_leaf(items, order, nodes, i, to),
    );
}

// The box of a node: the one that it has if it is a leaf, and else by those of its children.
fn box_by(boxes: &[Box3], i: usize, node: Node) -> Box3
    requires small { i < length boxes.now }
    requires children { HasJoin (length boxes.now) node }
    ensures { IsJoin boxes.now i result node }
{
    match node {
        Node::Leaf { .. } => boxes[i],
        Node::Inner { left, right } => boxes[left as usize].union(&boxes[right as usize]),
    }
}

// A box to begin with.
fn blank() -> Box3 {
    Box3::of_point(Vec3 { x: 0, y: 0, z: 0 })
}

// Sets the box of each node: those of leaves, and then the others from the last to the first.
fn fill<R: Threads + Sync>(
    rt: &R,
    threads: usize,
    items: &[Option<Box3>],
    order: &[u32],
    boxes: &mut [Box3],
    nodes: &[Node],
)
    requires threads { 0 < threads }
    requires active { All (IsActive items.now) order.now }
    requires boxed { length boxes.old ≡ length nodes.now }
    requires fit { AreFit (length order.now) nodes.now }
    requires rising { AreRising nodes.now }
    ensures { AreLocal items.now order.now boxes.new nodes.now }
{
    fill_leaves(rt, threads, items, order, nodes, boxes);
    let mut i = nodes.len();
    while i > 0 {
        i -= 1;
        let made = box_by(boxes, i, nodes[i]);
        boxes[i] = made;
    }
}

// The boxes of all nodes.
pub(crate) fn boxes_over<R: Threads + Sync>(
    rt: &R,
    threads: usize,
    alloc: Global,
    items: &[Option<Box3>],
    order: &[u32],
    nodes: &[Node],
) -> Result<Vec<Box3>, NoMemory>
    requires threads { 0 < threads }
    requires active { All (IsActive items.now) order.now }
    requires fit { AreFit (length order.now) nodes.now }
    requires rising { AreRising nodes.now }
    ensures local { IfOk result (λ v. AreLocal items.now order.now v.items nodes.now) }
    ensures boxed { IfOk result (λ v. length v.items ≡ length nodes.now) }
{
    let mut boxes = vec![in alloc; blank(); nodes.len()]?;
    fill(rt, threads, items, order, boxes.as_mut_slice(), nodes);
    Ok(boxes)
}
