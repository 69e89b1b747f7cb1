ghost use Rattle.std.specs.Prelude.{◌≤◌, ◌^◌, IfOk, length};
ghost use Rattle.ray_tree.specs.Shapes.{levels};
ghost use Rattle.ray_tree.specs.Trees.{TreeOver, shape_at};
ghost use Rattle.ray_morton.specs.KeyOrder.{IsInKeyOrder};
ghost use Rattle.ray_tree.specs.Trees.{items_below};
ghost use Rattle.ray_morton.specs.Cuts.{AreCut};

use crate::fill::boxes_over;
use crate::layout::layout_over;
use crate::threads::threads_for;
use ray_geom::Box3;
use ray_tree::Tree;
use std::alloc::{AllocError as NoMemory, Global};
use std::thread::Threads;

/// A tree over items, which are at most 2^20, by keys of 60 bits that say where the middles of
/// their boxes are. From the leftmost leaf on the active items are in rising order of key, then of
/// number. Where the keys below a node differ they are cut where their highest bit that differs
/// changes, and else in halves. `rt` lends the threads. (Own.)
///
/// # Errors
///
/// For want of memory alone.
pub fn build_fast<R: Threads + Sync>(
    rt: &R,
    alloc: Global,
    items: &[Option<Box3>],
) -> Result<Tree, NoMemory>
    requires { length items.now ≤ 2 ^ 20 }
    ensures over { IfOk result (λ t. TreeOver t items.now) }
    ensures order { IfOk result (λ t. IsInKeyOrder items.now (items_below t.order (shape_at t 0))) }
    ensures cut { IfOk result (λ t. AreCut items.now t.order (shape_at t 0)) }
    ensures low { IfOk result (λ t. levels (shape_at t 0) ≤ 96) }
{
    let threads = threads_for(rt, items.len());
    let layout = layout_over(rt, threads, alloc, items)?;
    let boxes = boxes_over(rt, threads, alloc, items, &layout.order, &layout.nodes)?;
    let tree = Tree::of_parts(alloc, layout.nodes, boxes, layout.order, items)?;
    Ok(tree)
}
