//! The primitives at the leaves of a tree, in its order.
ghost use Rattle.std.specs.Prelude.{◌≡◌, [], ◌∷◌, IfOk, IfSome, map, option_map, slice_get};
ghost use Rattle.ray_leaves.specs.LeafItems.{any_points, item_at, points_at, points_in};
ghost use Rattle.ray_leaves.specs.LeafItems.{points_of_box, points_of_tri};
ghost use Rattle.ray_leaves.specs.Lists.{items_in};
ghost use Rattle.ray_leaves.specs.LeafItems.{item_of_boxes, item_of_triangles};
ghost use Rattle.ray_leaves.specs.LeafItems.{points_of_boxes, points_of_triangles};

use crate::leaf_item::{ItemPoints, LeafItem};
use crate::leaf_list::LeafList;
use crate::prim_place::PrimPlace;
use crate::triangle_item::TriangleItem;
use ray_geom::Point32;
use ray_geometries::{Geometry, Shapes};
use ray_primitives::{KeptBox, KeptTriangle};
use std::alloc::{AllocError as NoMemory, Global};

/// The items of these places. Most structures have one geometry.
pub fn leaf_items_of(
    alloc: Global,
    geometries: &[Geometry],
    places: &[PrimPlace],
) -> Result<LeafList, NoMemory>
    ensures { IfOk result (λ list. items_in list ≡ map (item_at geometries.now) places.now) }
{
    match packed_items_of(alloc, geometries, places)? {
        Some(items) => Ok(LeafList::Triangles(items)),
        None => Ok(LeafList::Any(any_items_of(alloc, geometries, places)?)),
    }
}

// The same in few bytes each. None only where one isn't to be had so.
fn packed_items_of(
    alloc: Global,
    geometries: &[Geometry],
    places: &[PrimPlace],
) -> Result<Option<Vec<TriangleItem>>, NoMemory>
    ensures { IfOk result (λ some. IfSome some
        (λ v. v.items ≡ map (item_at geometries.now) places.now)) }
{
    match geometries {
        [g] => packed_in_one(alloc, g, places),
        _ => packed_in_all(alloc, geometries, places),
    }
}

// Those in one geometry.
fn packed_in_one(
    alloc: Global,
    g: &Geometry,
    places: &[PrimPlace],
) -> Result<Option<Vec<TriangleItem>>, NoMemory>
    ensures { IfOk result (λ some. IfSome some
        (λ v. v.items ≡ map (item_at (g.now ∷ [])) places.now)) }
{
    match &g.shapes {
        Shapes::Triangles { triangles, .. } => {
            packed_triangles(alloc, triangles.as_slice(), places)
        }
        Shapes::Boxes { .. } => Ok(None),
    }
}

// Those in one geometry of these triangles. Nothing but these is looked at for each, so that many
// of them come from memory at a time.
fn packed_triangles(
    alloc: Global,
    triangles: &[KeptTriangle],
    places: &[PrimPlace],
) -> Result<Option<Vec<TriangleItem>>, NoMemory>
    ensures { IfOk result (λ some. IfSome some
        (λ v. v.items ≡ map (item_of_triangles triangles.now) places.now)) }
{
    let mut items = Vec::with_capacity(alloc, places.len())?;
    for place in places {
        let points = points_of_triangles(triangles, *place);
        match TriangleItem::pack(*place, points) {
            Some(item) => items.push(item)?,
            None => return Ok(None),
        }
    }
    Ok(Some(items))
}

// Those in several geometries.
fn packed_in_all(
    alloc: Global,
    geometries: &[Geometry],
    places: &[PrimPlace],
) -> Result<Option<Vec<TriangleItem>>, NoMemory>
    ensures { IfOk result (λ some. IfSome some
        (λ v. v.items ≡ map (item_at geometries.now) places.now)) }
{
    let mut items = Vec::with_capacity(alloc, places.len())?;
    for place in places {
        let points = points_at(geometries, *place);
        match TriangleItem::pack(*place, points) {
            Some(item) => items.push(item)?,
            None => return Ok(None),
        }
    }
    Ok(Some(items))
}

// The items of these places as they are.
fn any_items_of(
    alloc: Global,
    geometries: &[Geometry],
    places: &[PrimPlace],
) -> Result<Vec<LeafItem>, NoMemory>
    ensures { IfOk result (λ v. v.items ≡ map (item_at geometries.now) places.now) }
{
    match geometries {
        [g] => any_items_in_one(alloc, g, geometries, places),
        _ => items_in_all(alloc, geometries, places),
    }
}

// Those in one geometry, which is the first of these.
fn any_items_in_one(
    alloc: Global,
    g: &Geometry,
    geometries: &[Geometry],
    places: &[PrimPlace],
) -> Result<Vec<LeafItem>, NoMemory>
    requires { geometries.now ≡ g.now ∷ [] }
    ensures { IfOk result (λ v. v.items ≡ map (item_at geometries.now) places.now) }
{
    match &g.shapes {
        Shapes::Triangles { .. } => items_in_all(alloc, geometries, places),
        Shapes::Boxes { boxes } => items_of_boxes(alloc, boxes.as_slice(), places),
    }
}

// Those in one geometry of these boxes.
fn items_of_boxes(
    alloc: Global,
    boxes: &[KeptBox],
    places: &[PrimPlace],
) -> Result<Vec<LeafItem>, NoMemory>
    ensures { IfOk result (λ v. v.items ≡ map (item_of_boxes boxes.now) places.now) }
{
    let mut items = Vec::with_capacity(alloc, places.len())?;
    for place in places {
        let points = points_of_boxes(boxes, *place);
        items.push(item_of(*place, points))?;
    }
    Ok(items)
}

// Those in several geometries.
fn items_in_all(
    alloc: Global,
    geometries: &[Geometry],
    places: &[PrimPlace],
) -> Result<Vec<LeafItem>, NoMemory>
    ensures { IfOk result (λ v. v.items ≡ map (item_at geometries.now) places.now) }
{
    let mut items = Vec::with_capacity(alloc, places.len())?;
    for place in places {
        let points = points_at(geometries, *place);
        items.push(item_of(*place, points))?;
    }
    Ok(items)
}

// The points of the triangle at a place, where there is one geometry, of these triangles.
fn points_of_triangles(triangles: &[KeptTriangle], place: PrimPlace) -> ItemPoints
    ensures { result ≡ points_of_triangles triangles.now place }
{
    if place.geometry == 0 {
        triangle_points(triangles, place.primitive)
    } else {
        ItemPoints::Nothing
    }
}

// The points of the box at a place, where there is one geometry, of these boxes.
fn points_of_boxes(boxes: &[KeptBox], place: PrimPlace) -> ItemPoints
    ensures { result ≡ points_of_boxes boxes.now place }
{
    if place.geometry == 0 {
        box_points(boxes, place.primitive)
    } else {
        ItemPoints::Nothing
    }
}

// The item of a place with points.
fn item_of(place: PrimPlace, points: ItemPoints) -> LeafItem
    ensures place { result.place ≡ place }
    ensures points { result.points ≡ points }
{
    LeafItem { place, points }
}

// The points of the primitive at a place.
fn points_at(geometries: &[Geometry], place: PrimPlace) -> ItemPoints
    ensures { result ≡ points_at geometries.now place }
{
    match geometries.get(place.geometry as usize) {
        Some(g) => points_in(&g.shapes, place.primitive),
        None => ItemPoints::Nothing,
    }
}

// The points of the primitive of this number.
fn points_in(shapes: &Shapes, i: u32) -> ItemPoints
    ensures { result ≡ points_in shapes.now i }
{
    match shapes {
        Shapes::Triangles { triangles, .. } => triangle_points(triangles.as_slice(), i),
        Shapes::Boxes { boxes } => box_points(boxes.as_slice(), i),
    }
}

// Those of a triangle.
fn triangle_points(triangles: &[KeptTriangle], i: u32) -> ItemPoints
    ensures { result
        ≡ any_points (option_map (λ t. points_of_tri t.tri) (slice_get triangles.now i)) }
{
    match triangles.get(i as usize) {
        Some(t) => vertices_of(t),
        None => ItemPoints::Nothing,
    }
}

// Those of a box.
fn box_points(boxes: &[KeptBox], i: u32) -> ItemPoints
    ensures { result ≡ any_points (option_map points_of_box (slice_get boxes.now i)) }
{
    match boxes.get(i as usize) {
        Some(b) => corners_of(b),
        None => ItemPoints::Nothing,
    }
}

// The vertices of a triangle.
fn vertices_of(t: &KeptTriangle) -> ItemPoints
    ensures { result ≡ points_of_tri t.now.tri }
{
    match t.tri() {
        Some(tri) => {
            let [a, b, c] = tri.vertices();
            ItemPoints::Triangle {
                a: Point32::narrow(a),
                b: Point32::narrow(b),
                c: Point32::narrow(c),
            }
        }
        None => ItemPoints::Nothing,
    }
}

// The corners of a box.
fn corners_of(b: &KeptBox) -> ItemPoints
    ensures { result ≡ points_of_box b.now }
{
    match b.bounds() {
        Some(bounds) => ItemPoints::Aabb {
            lo: Point32::narrow(bounds.lo()),
            hi: Point32::narrow(bounds.hi()),
        },
        None => ItemPoints::Nothing,
    }
}
