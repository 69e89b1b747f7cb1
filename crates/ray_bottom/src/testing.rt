ghost use Rattle.std.specs.Prelude.{◌≡◌, ◌+◌, IfSome, option_copied, option_map, option_and_then, slice_get};
ghost use Rattle.std.specs.List.{filter_map};
ghost use Rattle.ray_geom.specs.Boxes.{IsBox, box_value};
ghost use Rattle.ray_geom.specs.Scene.{IsTri, tri_value};
ghost use Rattle.ray_geom.specs.HitValue.{hit_of};
ghost use Rattle.ray_geom.specs.Transform.{world_tri};
ghost use Rattle.ray_prune.specs.BoxReach.{span_of};
ghost use Rattle.ray_contents.specs.Bounds.{KeepsBounds};
ghost use Rattle.ray_primitives.specs.Primitives.{box_of_triangle};
ghost use Rattle.ray_geometries.specs.Contents.{bounds_of, boxes_of};
ghost use Rattle.ray_bottom.specs.Meeting.{Hit, Through, meet_value, raw_meet_value, meet_of, shape_meet};
ghost use Rattle.ray_bottom.specs.Meeting.{triangle_meet, box_meet, hit_in_world, span_in_object};
ghost use Rattle.ray_leaves.specs.LeafItems.{IsItemOf};
ghost use Rattle.ray_bottom.specs.Leaves.{AreKept, points_meet};
ghost use Rattle.ray_bottom.specs.Meeting.{KeepsPoints, KeepsBoxes, KeepsTri};

use crate::bottom::Bottom;
use crate::meet::Meet;
use crate::raw_meet::RawMeet;
use ray_contents::kept_image;
use ray_geom::{
    Box3, Matrix, ObjectRay, Point32, Ray, Steps, Tri, Unreduced, meet_tri, object_ray,
};
use ray_geometries::{Geometry, Shapes};
use ray_leaves::{ItemPoints, LeafItem, PrimPlace};
use ray_primitives::{KeptBox, KeptTriangle};
use ray_prune::reach_box;
use std::sync::ledger::Ledger;

impl Bottom {
    /// What the ray meets of one primitive, where an instance with this transform places the
    /// structure in the world: the hit of the world triangle, or the span of the box. None exactly
    /// where there is none, the primitive is inactive, or no primitive stands at the place. It
    /// takes one step. The images of the corners of the bounds are within the limits. (Vulkan, "Ray
    /// Traversal")
    pub fn test_prim<L: Ledger>(
        &self,
        place: PrimPlace,
        ray: &Ray,
        m: &Matrix,
        steps: &mut Steps<L>,
    ) -> Option<Meet>
        requires { KeepsBounds m.now (bounds_of self.now.geometries) }
        ensures meet { option_map meet_value result
            ≡ meet_of self.now.geometries place ray.now m.now }
        ensures step { steps.new ≡ steps.old + 1 }
    {
        steps.tick();
        let geometry = self.contents.geometry(place.geometry)?;
        let meet = test_in(geometry, place.primitive, ray, m)?;
        Some(meet.reduced())
    }

    /// The same of a primitive at a leaf of this structure, by the copy of its points, with
    /// fractions that aren't put in lowest terms yet. The step was taken where the leaf's
    /// primitives were read, by [`Bottom::leaf_items`] or [`Bottom::items_of_leaf`]. (Own.)
    pub fn test_item(&self, item: &LeafItem, ray: &Ray, m: &Matrix) -> Option<RawMeet>
        requires kept { KeepsBounds m.now (bounds_of self.now.geometries) }
        requires held { IsItemOf self.now.geometries item.now }
        ensures { option_map raw_meet_value result
            ≡ meet_of self.now.geometries item.now.place ray.now m.now }
    {
        let _limits = self.geometries();
        test_points(item.points, ray, m)
    }
}

// What the ray meets of points.
fn test_points(points: ItemPoints, ray: &Ray, m: &Matrix) -> Option<RawMeet>
    requires { AreKept m.now points }
    ensures { option_map raw_meet_value result ≡ points_meet ray.now m.now points }
{
    match points {
        ItemPoints::Triangle { a, b, c } => hit(&tri_of(a, b, c), ray, m),
        ItemPoints::Aabb { lo, hi } => span(&box_of(lo, hi), ray, m),
        ItemPoints::Nothing => None,
    }
}

// The triangle with these vertices.
fn tri_of(a: Point32, b: Point32, c: Point32) -> Tri
    requires { IsTri (tri_value a b c) }
    ensures { result ≡ tri_value a b c }
{
    Tri::of_vertices(a.wide(), b.wide(), c.wide())
}

// The box with these corners.
fn box_of(lo: Point32, hi: Point32) -> Box3
    requires { IsBox (box_value lo hi) }
    ensures { result ≡ box_value lo hi }
{
    Box3::of_corners(lo.wide(), hi.wide())
}

// What the ray meets of one primitive of a geometry.
fn test_in(g: &Geometry, primitive: u32, ray: &Ray, m: &Matrix) -> Option<RawMeet>
    requires { KeepsBoxes m.now (boxes_of g.now) }
    ensures { option_map raw_meet_value result ≡ shape_meet ray.now m.now primitive g.now.shapes }
{
    match &g.shapes {
        Shapes::Triangles { triangles, .. } => {
            triangle_at(triangles.as_slice(), primitive, ray, m)
        }
        Shapes::Boxes { boxes } => box_at(boxes.as_slice(), primitive, ray, m),
    }
}

// What the ray meets of a triangle of this number.
fn triangle_at(triangles: &[KeptTriangle], i: u32, ray: &Ray, m: &Matrix) -> Option<RawMeet>
    requires { KeepsBoxes m.now (filter_map box_of_triangle triangles.now) }
    ensures { option_map raw_meet_value result
        ≡ option_and_then (triangle_meet ray.now m.now) (slice_get triangles.now i) }
{
    let t = nth(triangles, i)?;
    test_triangle(t, ray, m)
}

// The triangle of this number.
fn nth<'a>(triangles: &'a [KeptTriangle], i: u32) -> Option<&'a KeptTriangle>
    ensures { option_copied result ≡ slice_get triangles.now i }
{
    triangles.get(i as usize)
}

// What the ray meets of a box of this number.
fn box_at(boxes: &[KeptBox], i: u32, ray: &Ray, m: &Matrix) -> Option<RawMeet>
    ensures { option_map raw_meet_value result
        ≡ option_and_then (box_meet ray.now m.now) (slice_get boxes.now i) }
{
    let b = boxes.get(i as usize)?;
    test_box(b, ray, m)
}

// What the ray meets of a triangle.
fn test_triangle(t: &KeptTriangle, ray: &Ray, m: &Matrix) -> Option<RawMeet>
    requires { IfSome (box_of_triangle t.now) (KeepsPoints m.now) }
    ensures { option_map raw_meet_value result ≡ triangle_meet ray.now m.now t.now }
{
    let tri = t.tri()?;
    hit(&tri, ray, m)
}

// What the ray meets of a box.
fn test_box(b: &KeptBox, ray: &Ray, m: &Matrix) -> Option<RawMeet>
    ensures { option_map raw_meet_value result ≡ box_meet ray.now m.now b.now }
{
    let b = b.bounds()?;
    span(&b, ray, m)
}

// The hit of the world triangle of a triangle.
fn hit(tri: &Tri, ray: &Ray, m: &Matrix) -> Option<RawMeet>
    requires { KeepsTri m.now tri.now }
    ensures { option_map raw_meet_value result ≡ hit_in_world ray.now m.now tri.now }
{
    world_hit(ray, &world(m, tri))
}

// The hit of a triangle of the world.
fn world_hit(ray: &Ray, tri: &Tri) -> Option<RawMeet>
    ensures { option_map raw_meet_value result ≡ option_map Hit (hit_of ray.now tri.now) }
{
    match meet_tri(ray, tri) {
        Some(hit) => Some(RawMeet::Tri(hit)),
        None => None,
    }
}

// The world triangle of a triangle. Many instances stand where their objects are.
fn world(m: &Matrix, tri: &Tri) -> Tri
    requires { KeepsTri m.now tri.now }
    ensures { result ≡ world_tri m.now tri.now }
{
    if m.is_identity() { *tri } else { moved(m, tri) }
}

// The same where they stand elsewhere.
fn moved(m: &Matrix, tri: &Tri) -> Tri
    requires { KeepsTri m.now tri.now }
    ensures { result ≡ world_tri m.now tri.now }
{
    let [a, b, c] = tri.vertices();
    Tri::of_vertices(kept_image(m, a), kept_image(m, b), kept_image(m, c))
}

// The span of a box of the object's space.
fn span(b: &Box3, ray: &Ray, m: &Matrix) -> Option<RawMeet>
    ensures { option_map raw_meet_value result ≡ span_in_object ray.now m.now b.now }
{
    object_span(&object_ray(ray, m), b)
}

// The span of a box, by the ray in the object's space.
fn object_span(ray: &ObjectRay, b: &Box3) -> Option<RawMeet>
    ensures { option_map raw_meet_value result ≡ option_map Through (span_of ray.now b.now) }
{
    let reach = reach_box(ray, b)?;
    Some(RawMeet::Aabb {
        entry: Unreduced::new(reach.entry.num, reach.entry.den),
        exit: Unreduced::new(reach.exit.num, reach.exit.den),
    })
}
