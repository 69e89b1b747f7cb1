ghost use Rattle.std.specs.Prelude.{◌≡◌, ◌+◌, Some};
ghost use Rattle.std.specs.Option.{option_to_list};
ghost use Rattle.ray_contents.specs.Bounds.{KeepsBounds};
ghost use Rattle.ray_geometries.specs.Contents.{bounds_of};
ghost use Rattle.ray_bottom.specs.Meeting.{Hit, Through, raw_meet_value};
ghost use Rattle.ray_geom.specs.HitValue.{hit_value, reduced_hit};
ghost use Rattle.ray_geom.specs.Transform.{det_of};
ghost use Rattle.ray_prune.specs.Facing.{is_front};
ghost use Rattle.ray_query.specs.Raw.{reduced_found};
ghost use Rattle.ray_candidates.specs.Candidates.{admitted, found_at, found_box, found_triangle};
ghost use Rattle.ray_candidates.specs.Telling.{found_raw, placed_value, span_at};

use crate::placed::Placed;
use ray_bottom::{Bottom, PrimPlace, RawMeet};
use ray_flags::{Kind, RayFlags, culled, shows_front};
use ray_geom::{Matrix, RawHit, Ray, Steps, Unreduced};
use ray_query::{Found, RawFound};
use std::sync::ledger::Ledger;

// What the ray finds of one primitive of a geometry. It takes one step.
pub(crate) fn find<L: Ledger>(
    bottom: &Bottom,
    at: &Placed<'_>,
    primitive: u32,
    ray: &Ray,
    flags: RayFlags,
    steps: &mut Steps<L>,
) -> Option<Found>
    requires { KeepsBounds at.now.instance.now.matrix (bounds_of bottom.now.geometries) }
    ensures value { option_to_list result
        ≡ found_at ray.now flags bottom.now.geometries (placed_value at.now) primitive }
    ensures step { steps.new ≡ steps.old + 1 }
{
    let place = PrimPlace {
        geometry: at.geometry,
        primitive,
    };
    let meet = bottom.test_prim(place, ray, &at.instance.matrix, steps)?;
    let found = admit(at, primitive, RawMeet::of(meet), flags)?;
    Some(found.reduced())
}

/// What is found of a primitive where this is met, unless the ray passes over it for its kind, its
/// opacity or its face. No fraction is put in lowest terms. (Vulkan, "Ray Traversal": culling.)
pub fn admit(at: &Placed<'_>, primitive: u32, meet: RawMeet, flags: RayFlags) -> Option<RawFound>
    ensures { found_raw result
        ≡ admitted flags (placed_value at.now) primitive (Some (raw_meet_value meet)) }
{
    match meet {
        RawMeet::Tri(hit) => admit_triangle(at, primitive, hit, flags),
        RawMeet::Aabb { entry, exit } => admit_box(at, primitive, entry, exit, flags),
    }
}

// What is found of a triangle that is hit, unless the ray passes over it.
fn admit_triangle(at: &Placed<'_>, primitive: u32, hit: RawHit, flags: RayFlags) -> Option<RawFound>
    ensures { found_raw result ≡ admitted flags
        (placed_value at.now) primitive (Some (Hit (hit_value (reduced_hit hit)))) }
{
    let front = sees_front(hit.den_negative, &at.instance.matrix);
    if culled(Kind::Triangle, at.opaque, front, at.instance.flags, flags) {
        return None;
    }
    Some(triangle(at, primitive, front, hit))
}

// Whether the ray sees the front of a triangle that it hits, before the instance's flip.
fn sees_front(den_negative: bool, m: &Matrix) -> bool
    ensures { result ≡ is_front den_negative (det_of m.now) }
{
    den_negative != (m.det() < 0)
}

// What is found of a box that is met, unless the ray passes over it.
fn admit_box(
    at: &Placed<'_>,
    primitive: u32,
    entry: Unreduced,
    exit: Unreduced,
    flags: RayFlags,
) -> Option<RawFound>
    ensures { found_raw result ≡ admitted flags
        (placed_value at.now) primitive (Some (Through (span_at entry exit))) }
{
    if culled(Kind::Aabb, at.opaque, false, at.instance.flags, flags) {
        return None;
    }
    Some(aabb(at, primitive, entry, exit))
}

// What is found of a triangle that is hit, of which the ray sees the front or not.
fn triangle(at: &Placed<'_>, primitive: u32, front: bool, hit: RawHit) -> RawFound
    requires { front ≡ is_front hit.den_negative (det_of at.now.instance.now.matrix) }
    ensures { reduced_found result
        ≡ found_triangle (placed_value at.now) primitive (hit_value (reduced_hit hit)) }
{
    RawFound {
        kind: Kind::Triangle,
        opaque: at.opaque,
        instance: at.number,
        geometry: at.geometry,
        primitive,
        custom: at.instance.custom,
        sbt: at.instance.sbt,
        front: shows_front(front, at.instance.flags),
        t: hit.t,
        exit: None,
        u: hit.u,
        v: hit.v,
    }
}

// What is found of a box that is met.
fn aabb(at: &Placed<'_>, primitive: u32, entry: Unreduced, exit: Unreduced) -> RawFound
    ensures { reduced_found result
        ≡ found_box (placed_value at.now) primitive (span_at entry exit) }
{
    RawFound {
        kind: Kind::Aabb,
        opaque: at.opaque,
        instance: at.number,
        geometry: at.geometry,
        primitive,
        custom: at.instance.custom,
        sbt: at.instance.sbt,
        front: false,
        t: entry,
        exit: Some(exit),
        u: Unreduced::new(0, 1),
        v: Unreduced::new(0, 1),
    }
}
