//! The items of a structure's tree: the boxes of its primitives, and the place of each.
ghost use Rattle.std.specs.Prelude.{◌≡◌, ◌++◌, ◌≤◌, ◌^◌, OnOk, IfOk, map, length, slice_index_or};
ghost use Rattle.std.specs.List.{range_with_len};
ghost use Rattle.ray_primitives.specs.Primitives.{box_of_triangle};
ghost use Rattle.ray_geometries.specs.Contents.{total_of};
ghost use Rattle.ray_leaves.specs.Places.{place_of};
ghost use Rattle.ray_bottom.specs.Trees.{items_of, items_of_shapes, place_at, place_in_one, places_from};

use ray_geom::Box3;
use ray_geometries::{Geometry, Shapes};
use ray_leaves::PrimPlace;
use ray_primitives::{KeptBox, KeptTriangle};
use std::alloc::{AllocError as NoMemory, Global};

// The box of each primitive, through all geometries, of which there are so many.
pub(crate) fn items_of(
    alloc: Global,
    geometries: &[Geometry],
    total: u32,
) -> Result<Vec<Option<Box3>>, NoMemory>
    ensures { IfOk result (λ v. v.items ≡ items_of geometries.now) }
{
    let mut items = Vec::with_capacity(alloc, total as usize)?;
    for g in geometries {
        append_items(&mut items, g)?;
    }
    Ok(items)
}

// Those of one geometry.
fn append_items(items: &mut Vec<Option<Box3>>, g: &Geometry) -> Result<(), NoMemory>
    ensures { OnOk result (items.new.items ≡ items.old.items ++ items_of_shapes g.now.shapes) }
{
    match &g.shapes {
        Shapes::Triangles { triangles, .. } => append_triangles(items, triangles.as_slice()),
        Shapes::Boxes { boxes } => append_boxes(items, boxes.as_slice()),
    }
}

// Those of triangles.
fn append_triangles(
    items: &mut Vec<Option<Box3>>,
    triangles: &[KeptTriangle],
) -> Result<(), NoMemory>
    ensures { OnOk result (items.new.items ≡ items.old.items ++ map box_of_triangle triangles.now) }
{
    for t in triangles {
        items.push(t.bounds())?;
    }
    Ok(())
}

// Those of boxes.
fn append_boxes(items: &mut Vec<Option<Box3>>, boxes: &[KeptBox]) -> Result<(), NoMemory>
    ensures { OnOk result (items.new.items ≡ items.old.items ++ boxes.now) }
{
    for b in boxes {
        items.push(b.bounds())?;
    }
    Ok(())
}

// The places of the primitives of these numbers. Most structures have one geometry, where a number
// is its own primitive's.
pub(crate) fn places_of(
    alloc: Global,
    geometries: &[Geometry],
    total: u32,
    numbers: &[u32],
) -> Result<Vec<PrimPlace>, NoMemory>
    requires limits { total_of geometries.now ≤ 2 ^ 20 }
    requires few { length geometries.now ≤ 256 }
    ensures { IfOk result (λ v. v.items ≡ map (place_at geometries.now) numbers.now) }
{
    match geometries {
        [g] => places_in_one(alloc, g.count() as u32, numbers),
        _ => places_in_all(alloc, geometries, total, numbers),
    }
}

// Those in one geometry with so many primitives.
fn places_in_one(alloc: Global, count: u32, numbers: &[u32]) -> Result<Vec<PrimPlace>, NoMemory>
    ensures { IfOk result (λ v. v.items ≡ map (place_in_one count) numbers.now) }
{
    let mut places = Vec::with_capacity(alloc, numbers.len())?;
    for p in numbers {
        places.push(place_in_one(count, *p))?;
    }
    Ok(places)
}

// The place of a number in one geometry with so many primitives.
fn place_in_one(count: u32, p: u32) -> PrimPlace
    ensures { result ≡ place_in_one count p }
{
    PrimPlace {
        geometry: 0,
        primitive: if p < count { p } else { 0 },
    }
}

// Those in several geometries, by a table of all.
fn places_in_all(
    alloc: Global,
    geometries: &[Geometry],
    total: u32,
    numbers: &[u32],
) -> Result<Vec<PrimPlace>, NoMemory>
    requires limits { total_of geometries.now ≤ 2 ^ 20 }
    requires few { length geometries.now ≤ 256 }
    ensures { IfOk result (λ v. v.items ≡ map (place_at geometries.now) numbers.now) }
{
    let all = all_places(alloc, geometries, total)?;
    let mut places = Vec::with_capacity(alloc, numbers.len())?;
    for p in numbers {
        places.push(nth_place(&all, *p))?;
    }
    Ok(places)
}

// The place of a number.
fn nth_place(all: &[PrimPlace], p: u32) -> PrimPlace
    ensures { result ≡ slice_index_or all.now p (place_of 0 0) }
{
    match all.get(p as usize) {
        Some(place) => *place,
        None => PrimPlace {
            geometry: 0,
            primitive: 0,
        },
    }
}

// The places of all primitives, through all geometries.
fn all_places(
    alloc: Global,
    geometries: &[Geometry],
    total: u32,
) -> Result<Vec<PrimPlace>, NoMemory>
    requires limits { total_of geometries.now ≤ 2 ^ 20 }
    requires few { length geometries.now ≤ 256 }
    ensures { IfOk result (λ v. v.items ≡ places_from 0 geometries.now) }
{
    let mut places = Vec::with_capacity(alloc, total as usize)?;
    for k in 0..geometries.len() {
        append_places(&mut places, k as u32, geometries[k].count() as u32)?;
    }
    Ok(places)
}

// Those of one geometry with so many primitives.
fn append_places(places: &mut Vec<PrimPlace>, geometry: u32, count: u32) -> Result<(), NoMemory>
    ensures { OnOk result (places.new.items
        ≡ places.old.items ++ map (place_of geometry) (range_with_len 0 count)) }
{
    for primitive in 0..count {
        places.push(PrimPlace {
            geometry,
            primitive,
        })?;
    }
    Ok(())
}
