ghost use Rattle.std.specs.Prelude.{◌≡◌, ◌≢◌, ◌*◌, ◌^◌, ◌↔◌, ◌≤ℤ◌, ℤ, pos, unsigned_abs, IsTrue, IsSome, IfSome, option_map};
ghost use Rattle.std.specs.Ordering.{ordering_then};
ghost use Rattle.ray_geom.specs.Vector.{IsWithin, IsShort, sign_of};
ghost use Rattle.ray_geom.specs.EdgeSide.{side_of};
ghost use Rattle.ray_geom.specs.TriangleHit.{over_size, IsFrom, IsTo, IsHit, IsRatio, Tells};
ghost use Rattle.ray_geom.specs.HitValue.{hit_of, hit_value, reduced_hit};
ghost use Rattle.ray_geom.specs.Measures.{side_at_tie_of, IsEdge, IsMeasured, AreInside};

use crate::edge::Edge;
use crate::measured::Measured;
use crate::raw_hit::RawHit;
use crate::ray::Ray;
use crate::tri::Tri;
use crate::tri_hit::TriHit;
use crate::unreduced::Unreduced;
use crate::vec3::{Vec3, cross, dot, minus};
use std::cmp::Ordering;

/// Whether and where the ray hits the triangle. Some exactly where there is a hit by `IsHit` of
/// `specs/TriangleHit`: the triangle isn't seen edge on, the ray passes inside its three edges with
/// all ties broken by `side_of` of `specs/EdgeSide`, and the distance is within the ray's interval,
/// ends included. (Own; after the chapter "Ray Traversal" of the Vulkan specification.)
pub fn hit_tri(ray: &Ray, tri: &Tri) -> Option<TriHit>
    ensures some { IsSome result ↔ IsHit ray.now tri.now }
    ensures value { IfSome result (Tells ray.now tri.now) }

    // The same as one function of the ray and the triangle.
    ensures hit { option_map hit_value result ≡ hit_of ray.now tri.now }
{
    match meet_tri(ray, tri) {
        Some(hit) => Some(hit.reduced()),
        None => None,
    }
}

/// The same with fractions that aren't put in lowest terms yet, so that it takes no greatest common
/// divisor. Most rays pass outside an edge, where no more is asked. (Own.)
pub fn meet_tri(ray: &Ray, tri: &Tri) -> Option<RawHit>
    ensures some { IsSome result ↔ IsHit ray.now tri.now }
    ensures value { IfSome result (λ hit. Tells ray.now tri.now (reduced_hit hit)) }
    ensures hit { option_map (λ hit. hit_value (reduced_hit hit)) result ≡ hit_of ray.now tri.now }
{
    let first = edge_of(ray, tri.v1, tri.v2);
    let second = edge_of(ray, tri.v2, tri.v0);
    if first.side != second.side {
        return None;
    }
    let third = edge_of(ray, tri.v0, tri.v1);
    if first.side != third.side {
        return None;
    }
    meet_between(ray, tri, first, second, third)
}

// The same where the ray passes the three edges on one side.
fn meet_between(ray: &Ray, tri: &Tri, first: Edge, second: Edge, third: Edge) -> Option<RawHit>
    requires first { IsEdge ray.now tri.now.v1 tri.now.v2 first }
    requires second { IsEdge ray.now tri.now.v2 tri.now.v0 second }
    requires third { IsEdge ray.now tri.now.v0 tri.now.v1 third }
    requires second_side { second.side ≡ first.side }
    requires third_side { third.side ≡ first.side }
    ensures some { IsSome result ↔ IsHit ray.now tri.now }
    ensures value { IfSome result (λ hit. Tells ray.now tri.now (reduced_hit hit)) }
{
    let m = measure(ray, tri, first, second, third);
    if are_inside(&m) && is_from_to(ray.tmin, ray.tmax, m.num, m.den) {
        Some(RawHit {
            t: over(m.num, m.den),
            u: over(m.second.volume, m.den),
            v: over(m.third.volume, m.den),
            den_negative: m.den < 0,
        })
    } else {
        None
    }
}

// All that decides the hit, and that it tells.
fn measure(ray: &Ray, tri: &Tri, first: Edge, second: Edge, third: Edge) -> Measured
    requires first { IsEdge ray.now tri.now.v1 tri.now.v2 first }
    requires second { IsEdge ray.now tri.now.v2 tri.now.v0 second }
    requires third { IsEdge ray.now tri.now.v0 tri.now.v1 third }
    ensures measured { IsMeasured ray.now tri.now result }
    ensures first { result.first ≡ first }
    ensures second { result.second ≡ second }
    ensures third { result.third ≡ third }
{
    let normal = cross(minus(tri.v1, tri.v0), minus(tri.v2, tri.v0));
    Measured {
        first,
        second,
        third,
        num: dot(minus(tri.v0, ray.origin), normal),
        den: dot(ray.dir, normal),
    }
}

// The edge from a to b, as it is seen from the ray's origin along its direction.
fn edge_of(ray: &Ray, a: Vec3, b: Vec3) -> Edge
    requires a_short { IsShort (2 ^ 19) a }
    requires b_short { IsShort (2 ^ 19) b }
    ensures { IsEdge ray.now a b result }
{
    let normal = cross(minus(a, ray.origin), minus(b, ray.origin));
    let volume = dot(ray.dir, normal);
    let side = side(volume, normal, a, b);
    Edge { volume, side }
}

// The side of the edge from a to b, by its volume and its normal. Where the ray passes through the
// edge the ties are broken.
fn side(volume: i64, normal: Vec3, a: Vec3, b: Vec3) -> Ordering
    ensures { result ≡ ordering_then (sign_of volume) (side_at_tie_of normal a b) }
{
    if volume == 0 {
        normal
            .x
            .cmp(&0)
            .then(normal.y.cmp(&0))
            .then(normal.z.cmp(&0))
            .then(b.cmp(&a))
    } else {
        volume.cmp(&0)
    }
}

// Whether the three sides, which are one, equal the sign of the determinant, which isn't 0.
fn are_inside(m: &Measured) -> bool
    requires second { m.now.second.side ≡ m.now.first.side }
    requires third { m.now.third.side ≡ m.now.first.side }
    ensures { IsTrue result ↔ AreInside m.now }
{
    m.den != 0 && m.first.side == m.den.cmp(&0)
}

// The numerator of num / den over the denominator's absolute value.
fn num_over_size(num: i64, den: i64) -> i64
    requires { IsWithin (3 * 2 ^ 61) num }
    ensures { result ≡ over_size num den }
{
    den.signum() * num
}

// Whether num / den is from least / 65536 to most / 65536.
fn is_from_to(least: u64, most: u64, num: i64, den: i64) -> bool
    requires { IsWithin (3 * 2 ^ 61) num }
    ensures { IsTrue result ↔ (IsFrom least num den × IsTo most num den) }
{
    let along = num_over_size(num, den);
    if along < 0 {
        return false;
    }
    let scaled = 65536 * along.unsigned_abs() as u128;
    let size = den.unsigned_abs() as u128;
    least as u128 * size <= scaled && scaled <= most as u128 * size
}

// num / den, where it isn't negative.
fn over(num: i64, den: i64) -> Unreduced
    requires den_not_zero { den ≢ pos 0 }
    requires num_short { IsWithin (3 * 2 ^ 61) num }
    requires den_short { IsWithin (3 * 2 ^ 61) den }
    requires not_negative { pos 0 ≤ℤ over_size num den }
    ensures { IsRatio result num den }
{
    Unreduced::new(num.unsigned_abs(), den.unsigned_abs())
}
