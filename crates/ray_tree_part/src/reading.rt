ghost use Rattle.std.specs.Prelude.{◌≡◌, ◌+◌, ◌*◌, ◌≤◌, ◌^◌, ◌++◌, true, None, Some, [], ◌∷◌, IfOk, IfErr, OnOk, length};
ghost use Rattle.ray_tree.specs.Shapes.{levels};
ghost use Rattle.ray_tree.specs.Trees.{TreeOver, shape_at};
ghost use Rattle.ray_tree_part.specs.TreeParts.{box_in, node_in, node_of, nodes_in, node_count};
ghost use Rattle.ray_tree_part.specs.TreeParts.{item_of, order_in, item_count, is_part, part_size, IsNone};
ghost use Rattle.ray_tree_part.specs.TreeParts.{IsSpelled};

use crate::fields::word;
use ray_geom::Box3;
use ray_primitives::KeptBox;
use ray_stated::{NoMemory, StoredNode, TreeFault, carried_law, tree_of};
use ray_tree::Tree;
use std::alloc::Global;

/// Whether bytes have the size that their two counts say.
#[tactic(auto, unfolding(crate::specs::TreeParts::is_part))]
pub fn is_part(part: &[u8]) -> bool
    ensures { result ≡ is_part part.now }
{
    part.len() >= 8 && part_size(node_count(part), item_count(part)) == part.len() as u64
}

// So many bytes these are with their counts.
fn part_size(nodes: u32, items: u32) -> u64
    ensures { result ≡ part_size nodes items }
{
    8 + 32 * u64::from(nodes) + 4 * u64::from(items)
}

// How many nodes there are.
#[tactic(auto, unfolding(crate::specs::TreeParts::node_count))]
fn node_count(part: &[u8]) -> u32
    requires { 8 ≤ length part.now }
    ensures { result ≡ node_count part.now }
{
    word(part, 0)
}

// How many items there are.
#[tactic(auto, unfolding(crate::specs::TreeParts::item_count))]
fn item_count(part: &[u8]) -> u32
    requires { 8 ≤ length part.now }
    ensures { result ≡ item_count part.now }
{
    word(part, 4)
}

// The box of a node.
#[tactic(auto, unfolding(crate::specs::TreeParts::box_in))]
fn box_in(bytes: &[u8]) -> Option<Box3>
    requires { length bytes.now ≡ 32 }
    ensures { result ≡ box_in bytes.now }
{
    let (front, _) = bytes.split_at(24);
    match KeptBox::from_bytes(front) {
        Some(kept) => kept.bounds(),
        None => None,
    }
}

// The node of 32 bytes.
#[tactic(auto, unfolding(crate::specs::TreeParts::node_in))]
fn node_in(bytes: &[u8]) -> Option<StoredNode>
    requires { length bytes.now ≡ 32 }
    ensures { result ≡ node_in bytes.now }
{
    match box_in(bytes) {
        Some(bounds) => Some(StoredNode {
            bounds,
            count: word(bytes, 24),
            link: word(bytes, 28),
        }),
        None => None,
    }
}

// Node i.
#[tactic(auto, unfolding(crate::specs::TreeParts::node_of))]
fn node_of(part: &[u8], i: u32) -> Option<StoredNode>
    requires { 8 + 32 * (i + 1) ≤ length part.now }
    ensures { result ≡ node_of part.now i }
{
    let (_, rest) = part.split_at(8 + 32 * i as usize);
    let (node, _) = rest.split_at(32);
    node_in(node)
}

// All nodes. NotTree exactly where one has no box.
#[tactic(auto, using(ray_contents::proofs::Gathered::all_values))]
fn nodes_in(alloc: Global, part: &[u8]) -> Result<Vec<StoredNode>, TreeFault>
    requires whole { 8 ≤ length part.now }
    requires room { part_size (node_count part.now) (item_count part.now) ≤ length part.now }
    ensures nodes { IfOk result (λ v. nodes_in part.now ≡ Some v.items) }
    ensures none { IfErr result (IsNone (nodes_in part.now)) }
{
    let count = node_count(part);
    let mut nodes = Vec::with_capacity(alloc, count as usize)?;
    for i in 0..count {
        match node_of(part, i) {
            Some(node) => push(&mut nodes, node)?,
            None => return Err(TreeFault::NotTree),
        }
    }
    Ok(nodes)
}

// One node more.
fn push(nodes: &mut Vec<StoredNode>, node: StoredNode) -> Result<(), NoMemory>
    ensures { OnOk result (nodes.new.items ≡ nodes.old.items ++ node ∷ []) }
{
    nodes.push(node)?;
    Ok(())
}

// The number at place k.
#[tactic(auto, unfolding(crate::specs::TreeParts::item_of))]
fn item_of(part: &[u8], k: u32) -> u32
    requires { 8 + 32 * node_count part.now + 4 * (k + 1) ≤ length part.now }
    ensures { result ≡ item_of part.now k }
{
    word(part, 8 + 32 * node_count(part) as usize + 4 * k as usize)
}

// All numbers.
fn order_in(alloc: Global, part: &[u8]) -> Result<Vec<u32>, NoMemory>
    requires whole { 8 ≤ length part.now }
    requires room { part_size (node_count part.now) (item_count part.now) ≤ length part.now }
    ensures { IfOk result (λ v. v.items ≡ order_in part.now) }
{
    let count = item_count(part);
    let mut order = Vec::with_capacity(alloc, count as usize)?;
    for k in 0..count {
        order.push(item_of(part, k))?;
    }
    Ok(order)
}

/// The tree over items, which are at most 2^20, that a tree part spells. It takes time linear in
/// the bytes and the items, and never goes down further than 96 levels. (Own.)
///
/// # Errors
///
/// NotTree exactly where it spells none, and NoMemory for want of memory alone.
#[tactic(auto, using(crate::proofs::Rooms::part_rooms))]
pub fn tree_in(alloc: Global, items: &[Option<Box3>], part: &[u8]) -> Result<Tree, TreeFault>
    requires few { length items.now ≤ 2 ^ 20 }
    requires part { is_part part.now ≡ true }
    ensures tree { IsSpelled items.now part.now result }
    ensures over { IfOk result (λ t. TreeOver t items.now) }
    ensures low { IfOk result (λ t. levels (shape_at t 0) ≤ 96) }
{
    match nodes_in(alloc, part) {
        Ok(nodes) => match order_in(alloc, part) {
            Ok(order) => tree_from(alloc, items, part, &nodes, &order),
            Err(_) => Err(TreeFault::NoMemory),
        },
        Err(fault) => Err(fault),
    }
}

// The same of nodes and numbers, which are those of the part.
fn tree_from(
    alloc: Global,
    items: &[Option<Box3>],
    _part: &[u8],
    nodes: &[StoredNode],
    order: &[u32],
) -> Result<Tree, TreeFault>
    requires few { length items.now ≤ 2 ^ 20 }
    requires nodes { nodes_in _part.now ≡ Some nodes.now }
    requires order { order.now ≡ order_in _part.now }
    ensures tree { IsSpelled items.now _part.now result }
    ensures over { IfOk result (λ t. TreeOver t items.now) }
    ensures low { IfOk result (λ t. levels (shape_at t 0) ≤ 96) }
{
    carried_law(nodes, order, items);
    tree_of(alloc, nodes, order, items)
}
