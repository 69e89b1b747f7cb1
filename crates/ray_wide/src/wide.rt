ghost use Rattle.std.specs.Prelude.{◌≡◌, ◌<◌, IfOk, length};
ghost use Rattle.ray_wide.specs.Wides.{WideOver, IsCollapsed, IsSameButLanes};
ghost use Rattle.ray_wide.specs.Wides.{children_in, lanes_in, top_at};
ghost use Rattle.ray_wide.specs.Cuts.{root_of, first_tops};

use crate::child::Child;
use crate::fill::fill_all;
use crate::grow::grow;
use crate::node::{WideLeaf, WideNode, WideRef};
use ray_lanes::Lanes8;
use ray_tree::{Node, Tree};
use std::alloc::{AllocError as NoMemory, Global};
use std::marker::Model;

/// A wide tree over the leaves of a binary one. Contracts see it as its root, its nodes, and for
/// each of these the node of the binary tree for whose subtree it stands. (Own.)
#[derive(Drop)]
pub struct Wide {
    root: WideRef,
    nodes: Vec<WideNode>,
    tops: Vec<u32>,
}

impl Model for Wide {
    ghost use Rattle.ray_wide.specs.Wides.{WideValue, wide_value};

    ghost Value = { WideValue };

    ghost view = { λ w. wide_value w.root w.nodes.items w.tops.items };
}

/// The wide tree over the leaves of a binary tree. Its nodes stand for subtrees of at least two
/// leaves; a tree of one leaf gives that leaf alone, and one of no node gives nothing. (Own.)
///
/// # Errors
///
/// For want of memory alone.
pub fn collapse(alloc: Global, tree: &Tree) -> Result<Wide, NoMemory>
    ensures { IfOk result (λ w. WideOver w tree.now) }
{
    let mut wide = collapsed(alloc, tree)?;
    wide.refit(tree);
    Ok(wide)
}

// The wide tree, its lanes yet to be made.
fn collapsed(alloc: Global, tree: &Tree) -> Result<Wide, NoMemory>
    ensures { IfOk result (λ w. IsCollapsed w tree.now.nodes) }
{
    tree.shape();
    let root = root_of(tree);
    let mut tops = first_tops(alloc, root)?;
    // Where subtrees are alike there is about a node to three and a half leaves.
    let mut nodes = Vec::with_capacity(alloc, tree.leaves() as usize / 3)?;
    grow(tree, &mut nodes, &mut tops)?;
    nodes.shrink_to_fit();
    tops.shrink_to_fit();
    Ok(Wide { root, nodes, tops })
}

// The root of a wide tree.
fn root_of(tree: &Tree) -> WideRef
    ensures { result ≡ root_of tree.now.nodes }
{
    if tree.nodes() == 0 {
        return WideRef::Empty;
    }
    match tree.node(0) {
        Node::Leaf { first, count } => WideRef::Leaf(WideLeaf {
            node: 0,
            first,
            count,
        }),
        Node::Inner { .. } => WideRef::Inner(0),
    }
}

// The subtrees for which wide nodes are to be made first: the whole tree, where its root isn't a
// leaf.
fn first_tops(alloc: Global, root: WideRef) -> Result<Vec<u32>, NoMemory>
    ensures { IfOk result (λ v. v.items ≡ first_tops root) }
{
    let mut tops = Vec::new(alloc);
    if let WideRef::Inner(_) = root {
        tops.push(0)?;
    }
    Ok(tops)
}

impl Wide {
    /// The same wide tree once more.
    ///
    /// # Errors
    ///
    /// For want of memory alone.
    pub fn copy(&self) -> Result<Wide, NoMemory>
        ensures { IfOk result (λ copy. copy ≡ self.now) }
    {
        let nodes = self.nodes.clone()?;
        let tops = self.tops.clone()?;
        Ok(Wide {
            root: self.root,
            nodes,
            tops,
        })
    }

    /// Makes the lanes those of a tree with the nodes of the one that was collapsed, whatever its
    /// boxes are. It takes no memory.
    pub fn refit(&mut self, tree: &Tree)
        requires { IsCollapsed self.old tree.now.nodes }
        ensures over { WideOver self.new tree.now }
        ensures same { IsSameButLanes self.old self.new }
    {
        tree.shape();
        fill_all(tree, &self.tops, &mut self.nodes);
    }

    /// The root: empty exactly where the tree has no node.
    pub fn root(&self) -> WideRef
        ensures { result ≡ self.now.root }
    {
        self.root
    }

    /// How many wide nodes there are. They are numbered from 0, each child after its parent.
    pub fn nodes(&self) -> usize
        ensures { result ≡ length self.now.nodes }
    {
        self.nodes.len()
    }

    /// The node of the binary tree for whose subtree a wide node stands. Its box is that of the
    /// lane in which the wide node is a child.
    pub fn subtree(&self, w: u32) -> u32
        requires { w < length self.now.tops }
        ensures { result ≡ top_at self.now.tops w }
    {
        self.tops[w as usize]
    }

    /// The children of a wide node, in eight places.
    pub fn children(&self, w: u32) -> &[Child; 8]
        requires { w < length self.now.nodes }
        ensures { result.now ≡ children_in self.now.nodes w }
    {
        &self.nodes[w as usize].children
    }

    /// The boxes of the children, place by place; where there is no child the lane is padded.
    pub fn lanes(&self, w: u32) -> &Lanes8
        requires { w < length self.now.nodes }
        ensures { result.now ≡ lanes_in self.now.nodes w }
    {
        &self.nodes[w as usize].lanes
    }
}
