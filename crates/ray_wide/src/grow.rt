//! The nodes of a wide tree, from the root on, one after the other.
ghost use Rattle.std.specs.Prelude.{◌≡◌, ◌<◌, ◌≤◌, ◌+◌, ◌++◌, ◌^◌, OnOk, IfOk, length};
ghost use Rattle.std.specs.List.{All};
ghost use Rattle.ray_tree.specs.Shapes.{node_at};
ghost use Rattle.ray_wide.specs.Wides.{child_at, top_at};
ghost use Rattle.ray_wide.specs.Cuts.{IsGrowing, IsNode, nodes_in, left_over};
ghost use Rattle.ray_wide.specs.Cuts.{inner_by, inners_of, ref_by, refs_of, eight_of};

use crate::child::Child;
use crate::cut::{Branch, cut_of};
use crate::node::{WideLeaf, WideNode};
use arrayvec::ArrayVec;
use ray_tree::{Node, Tree};
use std::alloc::AllocError as NoMemory;

// Makes the nodes that are still to be made, each of the subtree of its number in `tops`.
pub(crate) fn grow(
    tree: &Tree,
    nodes: &mut Vec<WideNode>,
    tops: &mut Vec<u32>,
) -> Result<(), NoMemory>
    requires { IsGrowing tree.now.nodes nodes.old.items tops.old.items }
    ensures growing { OnOk result (IsGrowing tree.now.nodes nodes.new.items tops.new.items) }
    ensures made { OnOk result (length nodes.new.items ≡ length tops.new.items) }
    ensures more { OnOk result (length tops.old.items ≤ length tops.new.items) }
    ensures none { OnOk result (length tops.old.items ≡ 0 → length tops.new.items ≡ 0) }
{
    while nodes.len() < tops.len() {
        grow_one(tree, nodes, tops)?;
    }
    Ok(())
}

// Makes the next node.
fn grow_one(tree: &Tree, nodes: &mut Vec<WideNode>, tops: &mut Vec<u32>) -> Result<(), NoMemory>
    requires growing { IsGrowing tree.now.nodes nodes.old.items tops.old.items }
    requires some { length nodes.old.items < length tops.old.items }
    ensures growing { OnOk result (IsGrowing tree.now.nodes nodes.new.items tops.new.items) }
    ensures less { OnOk result (left_over tree.now.nodes nodes.new.items tops.new.items
        < left_over tree.now.nodes nodes.old.items tops.old.items) }
    ensures more { OnOk result (length tops.old.items ≤ length tops.new.items) }
{
    tree.shape();
    let _many = tree.nodes();
    let cut = cut_of(tree, next_top(nodes, tops));
    let children = place(tree, cut.as_slice(), tops)?;
    nodes.push(WideNode::with_children(children))?;
    Ok(())
}

// The node for whose subtree the next wide node stands.
fn next_top(nodes: &Vec<WideNode>, tops: &Vec<u32>) -> u32
    requires { length nodes.now.items < length tops.now.items }
    ensures { result ≡ top_at tops.now.items (length nodes.now.items) }
{
    tops[nodes.len()]
}

// The subtrees of a cut as children, the inner ones being new wide nodes.
fn place(tree: &Tree, cut: &[Branch], tops: &mut Vec<u32>) -> Result<[Child; 8], NoMemory>
    requires each { All (IsNode tree.now.nodes) (nodes_in cut.now) }
    requires few { length cut.now ≤ 8 }
    requires room { length tops.old.items + length cut.now < 2 ^ 32 }
    ensures children { IfOk result (λ r. r ≡ eight_of
        (refs_of tree.now.nodes (length tops.old.items) (nodes_in cut.now))) }
    ensures tops { OnOk result (tops.new.items ≡ tops.old.items
        ++ inners_of tree.now.nodes (nodes_in cut.now)) }
{
    let mut refs = ArrayVec::<Child, 8>::new();
    for branch in cut {
        refs.push(place_one(tree, branch.node, tops)?);
    }
    Ok(in_eight(refs.as_slice()))
}

// A subtree as a child, a new wide node where it isn't a leaf.
fn place_one(tree: &Tree, n: u32, tops: &mut Vec<u32>) -> Result<Child, NoMemory>
    requires node { IsNode tree.now.nodes n }
    requires room { length tops.old.items < 2 ^ 32 }
    ensures child { IfOk result (λ r. r ≡ ref_by (length tops.old.items) n
        (node_at tree.now.nodes n)) }
    ensures tops { OnOk result (tops.new.items ≡ tops.old.items
        ++ inner_by n (node_at tree.now.nodes n)) }
{
    tree.limits();
    match tree.node(n) {
        Node::Leaf { first, count } => Ok(Child::leaf(WideLeaf {
            node: n,
            first,
            count,
        })),
        Node::Inner { .. } => {
            let at = tops.len() as u32;
            tops.push(n)?;
            Ok(Child::inner(at))
        }
    }
}

// Children in eight places.
fn in_eight(refs: &[Child]) -> [Child; 8]
    ensures { result ≡ eight_of refs.now }
{
    [
        ref_at(refs, 0),
        ref_at(refs, 1),
        ref_at(refs, 2),
        ref_at(refs, 3),
        ref_at(refs, 4),
        ref_at(refs, 5),
        ref_at(refs, 6),
        ref_at(refs, 7),
    ]
}

// A child of some, or nothing.
fn ref_at(refs: &[Child], k: usize) -> Child
    ensures { result ≡ child_at refs.now k }
{
    match refs.get(k) {
        Some(child) => *child,
        None => Child::empty(),
    }
}
