//! A tree that is to be refitted to new items.
ghost use Rattle.std.specs.Prelude.{◌≡◌, ◌≢◌, ◌<◌, ◌==◌, true, not, length, slice_index};
ghost use Rattle.ray_tree.specs.Trees.{leaves_of};
ghost use Rattle.ray_tree.specs.Local.{IsLeafAt};
ghost use Rattle.ray_climb.specs.Halves.{low_half, high_half};
ghost use Rattle.ray_climb.specs.Refits.{kid, box_over};
ghost use Rattle.ray_climb.specs.Ready.{IsReady, IsUp};

use crate::half::half;
use ray_geom::{Box3, Vec3};
use ray_tree::{Node, Tree, least_in};
use std::marker::Model;

// A tree, its new items, and the parents of its nodes. Contracts see the tree and the items.
#[derive(Drop)]
pub struct Refit {
    pub(crate) tree: Tree,
    pub(crate) items: Vec<Option<Box3>>,
    pub(crate) parents: Vec<u32>,
}

impl Model for Refit {
    ghost use Rattle.ray_climb.specs.Refits.{RefitValue, refit_value};
    ghost use Rattle.ray_climb.specs.Ready.{IsKept};

    ghost Value = { RefitValue };

    ghost view = { λ r. refit_value r.tree r.items.items };

    ghost invariant = { λ r. IsKept (refit_value r.tree r.items.items) r.parents.items };
}

// The way from a node to its parent.
#[derive(Clone, Copy, Debug)]
pub struct Up {
    // The parent.
    pub parent: u32,
    // Whether the node is its right child.
    pub right: bool,
    // The other child.
    pub sibling: u32,
}

// Where a hand stands: its leaf, its node, and the halves of the node's box.
#[derive(Clone, Copy, Debug)]
pub struct Stand {
    pub leaf: u32,
    pub node: u32,
    pub low: u64,
    pub high: u64,
}

impl Refit {
    // Says what is so of the tree and the items; it does nothing.
    pub(crate) fn ready(&self)
        ensures { IsReady self.now }
    {
        let _items = self.items.len();
    }

    // How many nodes there are.
    pub(crate) fn nodes(&self) -> u32
        ensures { result ≡ length self.now.tree.nodes }
    {
        self.tree.nodes()
    }

    // How many leaves there are.
    pub(crate) fn leaves(&self) -> u32
        ensures { result ≡ length (leaves_of self.now.tree) }
    {
        self.tree.leaves()
    }

    // The least box of the new items of a leaf.
    fn leaf_box(&self, n: u32) -> Box3
        requires { IsLeafAt self.now.tree n }
        ensures { result ≡ box_over self.now n }
    {
        self.ready();
        match self.tree.node(n) {
            Node::Leaf { first, count } => {
                least_in(
                    &self.items,
                    self.tree.order(),
                    first as usize,
                    count as usize,
                )
            }
            Node::Inner { left: _, right: _ } => Box3::of_point(Vec3 { x: 0, y: 0, z: 0 }),
        }
    }

    // Where a climb begins.
    pub(crate) fn stand(&self, leaf: u32) -> Stand
        requires { leaf < length (leaves_of self.now.tree) }
        ensures leaf { result.leaf ≡ leaf }
        ensures node { result.node ≡ slice_index (leaves_of self.now.tree) leaf }
        ensures small { result.node < length self.now.tree.nodes }
        ensures low { result.low ≡ low_half (box_over self.now result.node) }
        ensures high { result.high ≡ high_half (box_over self.now result.node) }
    {
        let node = self.tree.leaf(leaf);
        let bounds = self.leaf_box(node);
        Stand {
            leaf,
            node,
            low: half(bounds.lo()),
            high: half(bounds.hi()),
        }
    }

    // The way from a node to its parent.
    pub(crate) fn up(&self, n: u32) -> Up
        requires { (n < length self.now.tree.nodes) × (n ≢ 0) }
        ensures { IsUp self.now n result }
    {
        let parent = self.parents[n as usize];
        way(parent, self.tree.node(parent), n)
    }
}

// The way from a node that isn't the root to its parent, which is this one.
fn way(parent: u32, node: Node, n: u32) -> Up
    requires { n ≢ 0 }
    ensures parent { result.parent ≡ parent }
    ensures right { result.right ≡ (kid node true == n) }
    ensures sibling { result.sibling ≡ kid node (not (kid node true == n)) }
{
    match node {
        Node::Leaf { first: _, count: _ } => Up {
            parent,
            right: false,
            sibling: 0,
        },
        Node::Inner { left, right } => {
            let is_right = right == n;
            Up {
                parent,
                right: is_right,
                sibling: if is_right { left } else { right },
            }
        }
    }
}
