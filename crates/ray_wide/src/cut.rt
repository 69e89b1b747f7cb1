//! Cuts through a subtree of a binary tree: the subtrees that become the children of a wide node.
ghost use Rattle.std.specs.Prelude.{◌≡◌, ◌<◌, ◌+◌, length, slice_index_or, slice_set};
ghost use Rattle.std.specs.List.{insert};
ghost use Rattle.ray_wide.specs.Subtrees.{IsInnerNode};
ghost use Rattle.ray_wide.specs.Cuts.{IsCut, IsNode, nodes_in};

use arrayvec::ArrayVec;
use ray_geom::Box3;
use ray_tree::{Node, Tree};

// A wide node has at most so many children.
const MOST: usize = 8;

// A subtree of a cut: its node, and how far its box reaches over space, which is 0 for a leaf.
#[derive(Clone, Copy, Debug, Default)]
pub struct Branch {
    pub node: u32,
    pub surface: u64,
}

// The subtrees that become the children of a wide node: from the two below the node on, the one
// of the greatest surface is opened until there are eight, so that a walk tests few nodes.
pub(crate) fn cut_of(tree: &Tree, top: u32) -> ArrayVec<Branch, 8>
    requires { IsInnerNode tree.now.nodes top }
    ensures { IsCut tree.now.nodes top (nodes_in result.items) }
{
    let mut cut = first_cut(tree, top);
    for _round in 2..MOST {
        open(tree, top, &mut cut);
    }
    cut
}

// The two subtrees below a node.
fn first_cut(tree: &Tree, top: u32) -> ArrayVec<Branch, 8>
    requires { IsInnerNode tree.now.nodes top }
    ensures { IsCut tree.now.nodes top (nodes_in result.items) }
{
    tree.shape();
    let mut cut = ArrayVec::new();
    if let Node::Inner { left, right } = tree.node(top) {
        cut.push(branch_of(tree, left));
        cut.push(branch_of(tree, right));
    }
    cut
}

// Opens the subtree of the greatest surface, where there is room and it isn't a leaf.
fn open(tree: &Tree, _top: u32, cut: &mut ArrayVec<Branch, 8>)
    requires top { IsInnerNode tree.now.nodes _top }
    requires cut { IsCut tree.now.nodes _top (nodes_in cut.old.items) }
    ensures { IsCut tree.now.nodes _top (nodes_in cut.new.items) }
{
    tree.shape();
    if cut.len() >= MOST {
        return;
    }
    let k = widest(cut.as_slice());
    if let Node::Inner { left, right } = tree.node(node_at(cut.as_slice(), k)) {
        split(cut, k, branch_of(tree, left), branch_of(tree, right));
    }
}

// Puts two subtrees in the place of one.
fn split(cut: &mut ArrayVec<Branch, 8>, k: usize, left: Branch, right: Branch)
    requires within { k < length cut.old.items }
    requires room { length cut.old.items < 8 }
    ensures { cut.new.items ≡ insert (slice_set cut.old.items k left) (k + 1) right }
{
    cut[k] = left;
    cut.insert(k + 1, right);
}

// The node of a subtree of a cut.
fn node_at(cut: &[Branch], k: usize) -> u32
    requires { k < length cut.now }
    ensures { result ≡ slice_index_or (nodes_in cut.now) k 0 }
{
    cut[k].node
}

// Which of some subtrees has the greatest surface.
fn widest(cut: &[Branch]) -> usize
    requires { 0 < length cut.now }
    ensures { result < length cut.now }
{
    let mut best = 0;
    for k in 1..cut.len() {
        if cut[k].surface > cut[best].surface {
            best = k;
        }
    }
    best
}

// The subtree of a node.
fn branch_of(tree: &Tree, node: u32) -> Branch
    requires { IsNode tree.now.nodes node }
    ensures { result.node ≡ node }
{
    Branch {
        node,
        surface: surface_of(tree, node),
    }
}

// One more than half the surface of the box of a node, or 0 for a leaf.
fn surface_of(tree: &Tree, node: u32) -> u64
    requires { IsNode tree.now.nodes node }
{
    match tree.node(node) {
        Node::Leaf { .. } => 0,
        Node::Inner { .. } => half_surface(&tree.node_box(node)).saturating_add(1),
    }
}

// Half the surface of a box.
fn half_surface(b: &Box3) -> u64 {
    let (lo, hi) = (b.lo(), b.hi());
    let x = hi.x.abs_diff(lo.x);
    let y = hi.y.abs_diff(lo.y);
    let z = hi.z.abs_diff(lo.z);
    let sides = x.saturating_mul(y).saturating_add(x.saturating_mul(z));
    sides.saturating_add(y.saturating_mul(z))
}
