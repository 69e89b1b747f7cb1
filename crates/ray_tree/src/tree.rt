ghost use Rattle.std.specs.Prelude.{◌≡◌, ◌<◌, ◌≤◌, ◌^◌, ◌↔◌, IsTrue, IfOk, SomeIff, length, slice_index};
ghost use Rattle.ray_geom.specs.Boxes.{BoxValue};
ghost use Rattle.ray_tree.specs.Shapes.{node_at};
ghost use Rattle.ray_tree.specs.Trees.{TreeOver, IsShape, tree_value, box_at, item_at, leaves_of};
ghost use Rattle.ray_tree.specs.Local.{IsFit, IsLeafAt};

use crate::leaves::leaves_from_root;
use crate::node::Node;
use crate::over::is_over;
use ray_geom::Box3;
use std::alloc::{AllocError as NoMemory, Global};
use std::marker::Model;

/// A binary tree over items. Contracts see it as its nodes, their boxes, and the items' numbers in
/// the order of their places. (Own.)
#[derive(Drop)]
pub struct Tree {
    nodes: Vec<Node>,
    boxes: Vec<Box3>,
    order: Vec<u32>,
    leaves: Vec<u32>,
}

impl Model for Tree {
    ghost use Rattle.ray_tree.specs.Trees.{TreeValue, tree_value};
    ghost use Rattle.ray_tree.specs.Local.{IsKept};

    ghost Value = { TreeValue };

    ghost view = { λ t. tree_value t.nodes.items t.boxes.items t.order.items };

    ghost invariant = { λ t. IsKept (tree_value t.nodes.items t.boxes.items t.order.items) t.leaves.items };
}

impl Tree {
    /// The tree of these nodes, boxes and items' numbers, node 0 being the root. They are a tree
    /// over the items, which are at most 2^20.
    ///
    /// # Errors
    ///
    /// For want of memory alone.
    pub fn of_parts(
        alloc: Global,
        nodes: Vec<Node>,
        boxes: Vec<Box3>,
        order: Vec<u32>,
        _items: &[Option<Box3>],
    ) -> Result<Tree, NoMemory>
        requires few { length _items.now ≤ 2 ^ 20 }
        requires over { TreeOver (tree_value nodes.items boxes.items order.items) _items.now }
        ensures { IfOk result (λ t. t ≡ tree_value nodes.items boxes.items order.items) }
    {
        let tree = Tree::kept(alloc, nodes, boxes, order)?;
        Ok(tree)
    }

    /// This tree with other boxes, by which it is a tree over the items. It takes no memory.
    pub fn with_boxes(self, boxes: Vec<Box3>, _items: &[Option<Box3>]) -> Tree
        requires { TreeOver (tree_value self.nodes boxes.items self.order) _items.now }
        ensures { result ≡ tree_value self.nodes boxes.items self.order }
    {
        let Tree {
            nodes,
            boxes: _old,
            order,
            leaves,
        } = self;
        Tree {
            nodes,
            boxes,
            order,
            leaves,
        }
    }

    // The tree of these.
    pub(crate) fn kept(
        alloc: Global,
        nodes: Vec<Node>,
        boxes: Vec<Box3>,
        order: Vec<u32>,
    ) -> Result<Tree, NoMemory>
        requires shape { IsShape (tree_value nodes.items boxes.items order.items) }
        requires few { length order.items ≤ 2 ^ 20 }
        ensures { IfOk result (λ t. t ≡ tree_value nodes.items boxes.items order.items) }
    {
        let leaves = leaves_from_root(alloc, &nodes)?;
        Ok(Tree {
            nodes,
            boxes,
            order,
            leaves,
        })
    }

    /// Says what the shape of a tree is; it does nothing.
    pub fn shape(&self)
        ensures { IsShape self.now }
    {
        let _nodes = self.nodes.len();
    }

    /// Says how many places a tree has at most; it does nothing.
    pub fn limits(&self)
        ensures { length self.now.order ≤ 2 ^ 20 }
    {
        let _places = self.order.len();
    }

    /// How many nodes there are. They are numbered from 0, which is the root.
    pub fn nodes(&self) -> u32
        ensures { result ≡ length self.now.nodes }
    {
        self.nodes.len() as u32
    }

    /// The root. None exactly where there is no node.
    pub fn root(&self) -> Option<u32>
        ensures { SomeIff result (0 < length self.now.nodes) 0 }
    {
        if self.nodes.len() == 0 { None } else { Some(0) }
    }

    /// The node of a number.
    pub fn node(&self, i: u32) -> Node
        requires { i < length self.now.nodes }
        ensures value { result ≡ node_at self.now.nodes i }
        ensures limits { IsFit (length self.now.order) (length self.now.nodes) result }
    {
        self.shape();
        self.plain_node(i)
    }

    // The node of a number, as it stands there.
    fn plain_node(&self, i: u32) -> Node
        requires { i < length self.now.nodes }
        ensures { result ≡ node_at self.now.nodes i }
    {
        self.nodes[i as usize]
    }

    /// The box of a node.
    pub fn node_box(&self, i: u32) -> Box3
        requires { i < length self.now.nodes }
        ensures { (d : BoxValue) → result ≡ box_at self.now d i }
    {
        self.boxes[i as usize]
    }

    /// The number of the item of a place.
    pub fn item(&self, at: u32) -> u32
        requires { at < length self.now.order }
        ensures { result ≡ item_at self.now at }
    {
        self.order[at as usize]
    }

    /// The numbers of the items in the order of their places.
    pub fn order(&self) -> &[u32]
        ensures { result.now ≡ self.now.order }
    {
        &self.order
    }

    /// How many leaves there are.
    pub fn leaves(&self) -> u32
        ensures { result ≡ length (leaves_of self.now) }
    {
        self.leaves.len() as u32
    }

    /// The node of a leaf. Leaves are numbered from the left.
    pub fn leaf(&self, k: u32) -> u32
        requires { k < length (leaves_of self.now) }
        ensures value { result ≡ slice_index (leaves_of self.now) k }
        ensures limits { IsLeafAt self.now result }
    {
        self.shape();
        self.plain_leaf(k)
    }

    // The node of a leaf, as it stands there.
    fn plain_leaf(&self, k: u32) -> u32
        requires { k < length (leaves_of self.now) }
        ensures { result ≡ slice_index (leaves_of self.now) k }
    {
        self.leaves[k as usize]
    }

    /// The same tree once more.
    ///
    /// # Errors
    ///
    /// For want of memory alone.
    pub fn copy(&self) -> Result<Tree, NoMemory>
        ensures { IfOk result (λ t. t ≡ self.now) }
    {
        Ok(Tree {
            nodes: self.nodes.clone()?,
            boxes: self.boxes.clone()?,
            order: self.order.clone()?,
            leaves: self.leaves.clone()?,
        })
    }

    /// Whether this is a tree over these items. It takes time linear in the nodes and the items.
    pub fn is_tree_over(&self, items: &[Option<Box3>]) -> bool
        ensures { IsTrue result ↔ TreeOver self.now items.now }
    {
        self.shape();
        is_over(&self.nodes, &self.boxes, &self.order, items)
    }
}
