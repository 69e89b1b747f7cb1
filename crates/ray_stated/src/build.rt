ghost use Rattle.std.specs.Prelude.{◌≡◌, ◌≤◌, ◌^◌, IfOk, length};
ghost use Rattle.ray_tree.specs.Shapes.{levels, AreHalves};
ghost use Rattle.ray_tree.specs.Trees.{TreeOver, shape_at};
ghost use Rattle.ray_stated.specs.Stated.{stated_tree};

use crate::arrange::ordered;
use ray_geom::Box3;
use ray_tree::{NoMemory, Tree, build_over};
use std::alloc::Global;

/// The stated tree over items, which are at most 2^20: the tree by halves in which a node's items
/// go to its left child where fewer than half of them stand before it, by the sum of the least and
/// the greatest coordinate of its box and then by its number, along the axis along which these sums
/// are furthest apart, the first such. It is a function of the boxes alone. (Own.)
///
/// # Errors
///
/// For want of memory alone.
pub fn build_stated(alloc: Global, items: &[Option<Box3>]) -> Result<Tree, NoMemory>
    requires { length items.now ≤ 2 ^ 20 }
    ensures stated { IfOk result (λ t. t ≡ stated_tree items.now) }
    ensures over { IfOk result (λ t. TreeOver t items.now) }
    ensures halves { IfOk result (λ t. AreHalves (shape_at t 0)) }
    ensures low { IfOk result (λ t. levels (shape_at t 0) ≤ 96) }
{
    let order = ordered(alloc, items)?;
    let tree = build_over(alloc, items, order)?;
    Ok(tree)
}
