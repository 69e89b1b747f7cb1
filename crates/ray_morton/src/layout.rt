//! The nodes of a tree, and the items of its places.
ghost use Rattle.std.specs.Prelude.{◌≡◌, ◌<◌, ◌≤◌, ◌^◌, IfOk, length};
ghost use Rattle.ray_morton.specs.Entries.{key_parts, item_parts, Rises};
ghost use Rattle.ray_morton.specs.Planted.{IsTreeOf, IsLaid};

use crate::entries::{in_order, keys_in, numbers_in};
use crate::plant::nodes_over;
use ray_geom::Box3;
use ray_tree::Node;
use std::alloc::{AllocError as NoMemory, Global};
use std::thread::{self, Threads};

// The nodes of a tree, and the items of its places in order.
#[derive(Drop)]
pub struct Layout {
    pub nodes: Vec<Node>,
    pub order: Vec<u32>,
}

// The nodes of a tree over entries in order.
fn nodes_by(alloc: Global, entries: &[u128]) -> Result<Vec<Node>, NoMemory>
    requires few { length (key_parts entries.now) ≤ 2 ^ 20 }
    requires rising { Rises (key_parts entries.now) }
    ensures { IfOk result (λ v. IsTreeOf (key_parts entries.now) v.items) }
{
    let keys = keys_in(alloc, entries)?;
    let nodes = nodes_over(alloc, &keys)?;
    Ok(nodes)
}

// The layout over entries in order. Where there are several threads, one makes the order while
// another makes the nodes.
fn layout_by<R: Threads + Sync>(
    rt: &R,
    threads: usize,
    alloc: Global,
    entries: &[u128],
) -> Result<Layout, NoMemory>
    requires few { length (key_parts entries.now) ≤ 2 ^ 20 }
    requires rising { Rises (key_parts entries.now) }
    ensures order { IfOk result (λ l. l.order.items ≡ item_parts entries.now) }
    ensures nodes { IfOk result (λ l. IsTreeOf (key_parts entries.now) l.nodes.items) }
{
    if threads <= 1 {
        let order = numbers_in(alloc, entries)?;
        let nodes = nodes_by(alloc, entries)?;
        return Ok(Layout { nodes, order });
    }
    let (order, nodes) = thread::join(
        rt,
        || numbers_in(alloc, entries),
        || nodes_by(alloc, entries),
    );
    let order = order?;
    let nodes = nodes?;
    Ok(Layout { nodes, order })
}

// The layout of the tree over items.
pub(crate) fn layout_over<R: Threads + Sync>(
    rt: &R,
    threads: usize,
    alloc: Global,
    items: &[Option<Box3>],
) -> Result<Layout, NoMemory>
    requires threads { 0 < threads }
    requires few { length items.now ≤ 2 ^ 20 }
    ensures { IfOk result (λ l. IsLaid items.now l.order.items l.nodes.items) }
{
    let entries = in_order(rt, threads, alloc, items)?;
    let layout = layout_by(rt, threads, alloc, &entries)?;
    Ok(layout)
}
