//! What is below a wide node of a structure, and its root.
ghost use Rattle.std.specs.Prelude.{◌≡◌, ◌<◌, IfSome, OnOk, length};
ghost use Rattle.std.specs.List.{flat_map};
ghost use Rattle.ray_geom.specs.Boxes.{IsBox};
ghost use Rattle.ray_geom.specs.Vector.{vec3};
ghost use Rattle.ray_lanes.specs.Overlap.{of_box};
ghost use Rattle.ray_nearest.specs.Adding.{AddsNode, AddsOne};
ghost use Rattle.ray_tree.specs.Trees.{box_at};
ghost use Rattle.ray_wide.specs.Subtrees.{IsWideLeaf};
ghost use Rattle.ray_wide.specs.Wides.{children_in, lane_box, lanes_in};
ghost use Rattle.ray_walk.specs.Aims.{AddsThrough, AreTrees, HasBox, HasLane, LeavesOut};
ghost use Rattle.ray_walk.specs.Bounding.{IsEight};
ghost use Rattle.ray_candidates.specs.Placements.{entry_in};
ghost use Rattle.ray_tree.specs.Trees.{no_box};
ghost use Rattle.ray_walk.specs.WideScene.{child, inner_at, leaf_at};

use crate::bounding::{Eight, low_of};
use crate::level::Level;
use crate::set_bits::next_bit;
use crate::trees::Trees;
use ray_geom::{Box3, ObjectRay, Ratio, Vec3};
use ray_lanes::Lanes8;
use ray_nearest::{NoMemory, Turns, WalkNode};
use ray_prune::reach_box;
use ray_wide::{WideLeaf, WideRef};

// Adds the turns of the children of a wide node, of which the ray meets the boxes within the
// limit. Of those whose bits aren't set nothing more is asked. The last leaf among the others is
// kept, since its places stand here, beside its box, and are far away else.
pub(crate) fn push_children(
    trees: &Trees<'_, '_>,
    w: u32,
    met: u8,
    eight: &Option<Eight>,
    limit: Option<Ratio>,
    recent: &mut Option<WideLeaf>,
    turns: &mut Turns,
) -> Result<(), NoMemory>
    requires trees { AreTrees trees.now.tree.now trees.now.wide.now }
    requires node { w < length trees.now.wide.now.nodes }
    requires out { LeavesOut limit trees.now w met }
    requires eight { IfSome eight.now
        (IsEight trees.now.ray.now (lanes_in trees.now.wide.now.nodes w)) }
    requires recent { IfSome recent.old (IsWideLeaf trees.now.tree.now.nodes) }
    ensures added { let children = children_in trees.now.wide.now.nodes w in
        OnOk result (AddsThrough limit trees.now
        (flat_map (child trees.now.level) children) turns.old turns.new) }
    ensures recent { IfSome recent.new (IsWideLeaf trees.now.tree.now.nodes) }
{
    let children = trees.wide.children(w);
    let lanes = trees.wide.lanes(w);
    let mut k = next_bit(met, 0);
    while k < 8 {
        let below = children[k as usize].get();
        push_below(trees, lanes, k, limit, below, eight, recent, turns)?;
        k = next_bit(met, k + 1);
    }
    Ok(())
}

// Adds the turn of a child by its lane, unless the ray doesn't meet it within the limit.
fn push_below(
    trees: &Trees<'_, '_>,
    lanes: &Lanes8,
    k: u32,
    limit: Option<Ratio>,
    below: WideRef,
    eight: &Option<Eight>,
    recent: &mut Option<WideLeaf>,
    turns: &mut Turns,
) -> Result<(), NoMemory>
    requires few { k < 8 }
    requires eight { IfSome eight.now (IsEight trees.now.ray.now lanes.now) }
    requires lane { HasLane trees.now.tree.now trees.now.wide.now lanes.now k below }
    requires recent { IfSome recent.old (IsWideLeaf trees.now.tree.now.nodes) }
    ensures added { OnOk result (AddsThrough limit trees.now
        (child trees.now.level below) turns.old turns.new) }
    ensures recent { IfSome recent.new (IsWideLeaf trees.now.tree.now.nodes) }
{
    match below {
        WideRef::Empty => Ok(()),
        WideRef::Leaf(leaf) => {
            *recent = Some(leaf);
            let node = leaf_at(trees.level, leaf.node);
            push_lane(trees, lanes, k, limit, node, eight, turns)
        }
        WideRef::Inner(w) => {
            let node = inner_at(trees.level, w);
            push_lane(trees, lanes, k, limit, node, eight, turns)
        }
    }
}

// Adds the turn of a node with the box of a lane, unless it isn't met within the limit.
fn push_lane(
    trees: &Trees<'_, '_>,
    lanes: &Lanes8,
    k: u32,
    limit: Option<Ratio>,
    node: WalkNode,
    eight: &Option<Eight>,
    turns: &mut Turns,
) -> Result<(), NoMemory>
    requires few { k < 8 }
    requires limits { IsBox (lane_box lanes.now k) }
    requires eight { IfSome eight.now (IsEight trees.now.ray.now lanes.now) }
    ensures { let box = lane_box lanes.now k in OnOk result (AddsOne
        (AddsNode limit (λ n. entry_in trees.now.ray.now box) node) turns.old turns.new) }
{
    match eight {
        Some(eight) => push_from(trees, lanes, k, limit, node, eight, turns),
        None => push_exact(trees, lanes, k, limit, node, turns),
    }
}

// The same by what slabs tell of the boxes: it is tested exactly for a leaf alone.
fn push_from(
    trees: &Trees<'_, '_>,
    lanes: &Lanes8,
    k: u32,
    limit: Option<Ratio>,
    node: WalkNode,
    eight: &Eight,
    turns: &mut Turns,
) -> Result<(), NoMemory>
    requires few { k < 8 }
    requires limits { IsBox (lane_box lanes.now k) }
    requires eight { IsEight trees.now.ray.now lanes.now eight.now }
    ensures { let box = lane_box lanes.now k in OnOk result (AddsOne
        (AddsNode limit (λ n. entry_in trees.now.ray.now box) node) turns.old turns.new) }
{
    match node {
        WalkNode::Leaf { .. } => push_exact(trees, lanes, k, limit, node, turns),
        _ => turns.push_node(limit, low_of(eight, k), node),
    }
}

// The same by an exact test.
fn push_exact(
    trees: &Trees<'_, '_>,
    lanes: &Lanes8,
    k: u32,
    limit: Option<Ratio>,
    node: WalkNode,
    turns: &mut Turns,
) -> Result<(), NoMemory>
    requires few { k < 8 }
    requires limits { IsBox (lane_box lanes.now k) }
    ensures { let box = lane_box lanes.now k in OnOk result (AddsOne
        (AddsNode limit (λ n. entry_in trees.now.ray.now box) node) turns.old turns.new) }
{
    push_met(turns, limit, trees.ray, &lane_box(lanes, k), node)
}

// The box of a lane.
fn lane_box(lanes: &Lanes8, k: u32) -> Box3
    requires few { k < 8 }
    requires limits { IsBox (lane_box lanes.now k) }
    ensures { result ≡ lane_box lanes.now k }
{
    Box3::of_corners(corner(&lanes.lo, k), corner(&lanes.hi, k))
}

// A corner of the box of a lane.
fn corner(numbers: &[[i32; 8]; 3], k: u32) -> Vec3
    requires { k < 8 }
    ensures { result ≡ vec3 (of_box numbers.now 0 k) (of_box numbers.now 1 k)
        (of_box numbers.now 2 k) }
{
    let k = k as usize;
    Vec3 {
        x: i64::from(numbers[0][k]),
        y: i64::from(numbers[1][k]),
        z: i64::from(numbers[2][k]),
    }
}

/// Adds the turn of the root, if there is one and the ray meets it within the limit.
pub(crate) fn push_child(
    trees: &Trees<'_, '_>,
    limit: Option<Ratio>,
    below: WideRef,
    turns: &mut Turns,
) -> Result<(), NoMemory>
    requires { HasBox trees.now.tree.now trees.now.wide.now below }
    ensures { OnOk result (AddsThrough limit trees.now
        (child trees.now.level below) turns.old turns.new) }
{
    match below {
        WideRef::Empty => Ok(()),
        WideRef::Leaf(leaf) => {
            let node = leaf_at(trees.level, leaf.node);
            push_box(trees, limit, leaf.node, node, turns)
        }
        WideRef::Inner(w) => {
            let top = trees.wide.subtree(w);
            push_box(trees, limit, top, inner_at(trees.level, w), turns)
        }
    }
}

// A leaf, as the walk names it.
fn leaf_at(level: Level, n: u32) -> WalkNode
    ensures { result ≡ leaf_at level n }
{
    match level {
        Level::World => WalkNode::TopLeaf(n),
        Level::Object(instance) => WalkNode::Leaf { instance, node: n },
    }
}

// A wide node, as the walk names it.
fn inner_at(level: Level, w: u32) -> WalkNode
    ensures { result ≡ inner_at level w }
{
    match level {
        Level::World => WalkNode::TopInner(w),
        Level::Object(instance) => WalkNode::Inner { instance, node: w },
    }
}

// Adds the turn of a node with the box of a node of the binary tree, unless it isn't met within the
// limit.
fn push_box(
    trees: &Trees<'_, '_>,
    limit: Option<Ratio>,
    n: u32,
    node: WalkNode,
    turns: &mut Turns,
) -> Result<(), NoMemory>
    requires { n < length trees.now.tree.now.nodes }
    ensures { let box = box_at trees.now.tree.now no_box n in OnOk result (AddsOne
        (AddsNode limit (λ n. entry_in trees.now.ray.now box) node) turns.old turns.new) }
{
    push_met(turns, limit, trees.ray, &trees.tree.node_box(n), node)
}

// Adds the turn of a node with this box, unless it isn't met within the limit.
fn push_met(
    turns: &mut Turns,
    limit: Option<Ratio>,
    ray: &ObjectRay,
    bounds: &Box3,
    node: WalkNode,
) -> Result<(), NoMemory>
    ensures { OnOk result
        (AddsOne (AddsNode limit (λ n. entry_in ray.now bounds.now) node) turns.old turns.new) }
{
    match reach_box(ray, bounds) {
        Some(reach) => turns.push_node(limit, reach.entry, node),
        None => Ok(()),
    }
}
