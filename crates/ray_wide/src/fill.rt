//! The lanes of the nodes of a wide tree, by the boxes of the binary tree.
ghost use Rattle.std.specs.Prelude.{◌≡◌, [], ◌∷◌, map};
ghost use Rattle.ray_wide.specs.Wides.{top_at};
ghost use Rattle.ray_wide.specs.Lanes.{lane_of, lane_at, lane_for, padded_lane};
ghost use Rattle.ray_wide.specs.Lanes.{lanes_for, lanes_by, filled};

use crate::child::Child;
use crate::node::{WideNode, WideRef};
use ray_geom::Box3;
use ray_lanes::{Lanes8, PADDED_HI, PADDED_LO};
use ray_tree::Tree;

// The box of one lane: where it begins and ends on each axis.
#[derive(Clone, Copy, Debug)]
pub struct Lane {
    pub lo_x: i32,
    pub lo_y: i32,
    pub lo_z: i32,
    pub hi_x: i32,
    pub hi_y: i32,
    pub hi_z: i32,
}

// Makes the lanes of all nodes.
pub(crate) fn fill_all(tree: &Tree, tops: &[u32], nodes: &mut Vec<WideNode>)
    ensures { nodes.new.items ≡ map (filled tree.now tops.now) nodes.old.items }
{
    fill(tree, tops, nodes.as_mut_slice());
}

// Makes the lanes of some nodes.
fn fill(tree: &Tree, tops: &[u32], nodes: &mut [WideNode])
    ensures { nodes.new ≡ map (filled tree.now tops.now) nodes.old }
{
    for w in 0..nodes.len() {
        nodes[w] = refilled(tree, tops, &nodes[w]);
    }
}

// A node with its lanes made anew.
fn refilled(tree: &Tree, tops: &[u32], node: &WideNode) -> WideNode
    ensures { result ≡ filled tree.now tops.now node.now }
{
    WideNode {
        lanes: lanes_of(tree, tops, &node.children),
        children: node.children,
    }
}

// The lanes of a node by its children.
fn lanes_of(tree: &Tree, tops: &[u32], children: &[Child; 8]) -> Lanes8
    ensures { result ≡ lanes_by (lanes_for tree.now tops.now children.now) }
{
    let [a, b, c, d, e, f, g, h] = *children;
    beside(
        lane_for(tree, tops, a),
        lane_for(tree, tops, b),
        lane_for(tree, tops, c),
        lane_for(tree, tops, d),
        lane_for(tree, tops, e),
        lane_for(tree, tops, f),
        lane_for(tree, tops, g),
        lane_for(tree, tops, h),
    )
}

// Lanes beside each other.
fn beside(a: Lane, b: Lane, c: Lane, d: Lane, e: Lane, f: Lane, g: Lane, h: Lane) -> Lanes8
    ensures { result ≡ lanes_by (a ∷ b ∷ c ∷ d ∷ e ∷ f ∷ g ∷ h ∷ []) }
{
    Lanes8 {
        lo: [
            row(
                a.lo_x, b.lo_x, c.lo_x, d.lo_x, e.lo_x, f.lo_x, g.lo_x, h.lo_x,
            ),
            row(
                a.lo_y, b.lo_y, c.lo_y, d.lo_y, e.lo_y, f.lo_y, g.lo_y, h.lo_y,
            ),
            row(
                a.lo_z, b.lo_z, c.lo_z, d.lo_z, e.lo_z, f.lo_z, g.lo_z, h.lo_z,
            ),
        ],
        hi: [
            row(
                a.hi_x, b.hi_x, c.hi_x, d.hi_x, e.hi_x, f.hi_x, g.hi_x, h.hi_x,
            ),
            row(
                a.hi_y, b.hi_y, c.hi_y, d.hi_y, e.hi_y, f.hi_y, g.hi_y, h.hi_y,
            ),
            row(
                a.hi_z, b.hi_z, c.hi_z, d.hi_z, e.hi_z, f.hi_z, g.hi_z, h.hi_z,
            ),
        ],
    }
}

// Eight numbers.
fn row(a: i32, b: i32, c: i32, d: i32, e: i32, f: i32, g: i32, h: i32) -> [i32; 8]
    ensures { result ≡ a ∷ b ∷ c ∷ d ∷ e ∷ f ∷ g ∷ h ∷ [] }
{
    [a, b, c, d, e, f, g, h]
}

// The lane of a child.
fn lane_for(tree: &Tree, tops: &[u32], child: Child) -> Lane
    ensures { result ≡ lane_for tree.now tops.now child }
{
    match child.get() {
        WideRef::Empty => padded_lane(),
        WideRef::Leaf(leaf) => lane_at(tree, leaf.node),
        WideRef::Inner(w) => lane_at(tree, top_at(tops, w)),
    }
}

// The node for whose subtree a wide node stands.
fn top_at(tops: &[u32], w: u32) -> u32
    ensures { result ≡ top_at tops.now w }
{
    match tops.get(w as usize) {
        Some(top) => *top,
        None => 0,
    }
}

// The lane of the box of a node.
#[tactic(auto, unfolding(crate::specs::Lanes::lane_at))]
fn lane_at(tree: &Tree, n: u32) -> Lane
    ensures { result ≡ lane_at tree.now n }
{
    if n < tree.nodes() {
        lane_of(&tree.node_box(n))
    } else {
        padded_lane()
    }
}

// The lane of a box.
fn lane_of(b: &Box3) -> Lane
    ensures { result ≡ lane_of b.now }
{
    let (lo, hi) = (b.lo(), b.hi());
    Lane {
        lo_x: lo.x as i32,
        lo_y: lo.y as i32,
        lo_z: lo.z as i32,
        hi_x: hi.x as i32,
        hi_y: hi.y as i32,
        hi_z: hi.z as i32,
    }
}

// The lane without a box.
fn padded_lane() -> Lane
    ensures { result ≡ padded_lane }
{
    Lane {
        lo_x: PADDED_LO,
        lo_y: PADDED_LO,
        lo_z: PADDED_LO,
        hi_x: PADDED_HI,
        hi_y: PADDED_HI,
        hi_z: PADDED_HI,
    }
}
