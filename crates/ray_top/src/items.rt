//! The items of a top structure's tree: the boxes of its instances in the world.
ghost use Rattle.std.specs.Prelude.{◌≡◌, IfOk, map, Some, option_and_then};
ghost use Rattle.std.specs.List.{All};
ghost use Rattle.ray_contents.specs.Bounds.{KeepsBounds};
ghost use Rattle.ray_prune.specs.Pruning.{KeepsCorners};
ghost use Rattle.ray_top.specs.Contents.{IsInstance, IsActive};
ghost use Rattle.ray_top.specs.Trees.{item_of, world_box};

use crate::placed::Placed;
use crate::used_index::UsedIndex;
use ray_geom::{Box3, Matrix};
use ray_prune::image_box;
use std::alloc::{AllocError as NoMemory, Global};

// The box of each instance in the world.
pub(crate) fn items_of(
    alloc: Global,
    used: &UsedIndex<'_>,
    instances: &[Option<Placed>],
) -> Result<Vec<Option<Box3>>, NoMemory>
    requires { All (IsInstance used.now) instances.now }
    ensures { IfOk result (λ v. v.items ≡ map (item_of used.now) instances.now) }
{
    let mut items = Vec::with_capacity(alloc, instances.len())?;
    for i in instances {
        items.push(item_of(used, i))?;
    }
    Ok(items)
}

// The box of an instance; none where it is inactive, or its structure has no bounds.
fn item_of(used: &UsedIndex<'_>, instance: &Option<Placed>) -> Option<Box3>
    requires { IsInstance used.now instance.now }
    ensures { result ≡ item_of used.now instance.now }
{
    match instance {
        Some(placed) => placed_box(used, placed),
        None => None,
    }
}

// The box of an active instance.
fn placed_box(used: &UsedIndex<'_>, placed: &Placed) -> Option<Box3>
    requires { IsActive used.now placed.now }
    ensures { result ≡ item_of used.now (Some placed.now) }
{
    match used.get(placed.id()) {
        Some(bounds) => bounds_box(placed.matrix(), bounds),
        None => None,
    }
}

// The box of bounds in the world, if there are any.
fn bounds_box(m: &Matrix, bounds: Option<Box3>) -> Option<Box3>
    requires { KeepsBounds m.now bounds }
    ensures { result ≡ option_and_then (world_box m.now) bounds }
{
    match bounds {
        Some(bounds) => world_box(m, &bounds),
        None => None,
    }
}

// The box of bounds in the world.
fn world_box(m: &Matrix, bounds: &Box3) -> Option<Box3>
    requires { KeepsCorners m.now bounds.now }
    ensures { result ≡ world_box m.now bounds.now }
{
    Some(image_box(m, bounds))
}
