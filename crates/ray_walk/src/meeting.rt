//! Whether a window meets the points of a primitive. Where it doesn't, nothing of the primitive is
//! found up to the limit of the window.
ghost use Rattle.std.specs.Prelude.{◌≡◌, ◌↔◌, ◌<◌, ◌∷◌, [], pos, IsTrue};
ghost use Rattle.ray_geom.specs.Boxes.{box_value};
ghost use Rattle.ray_geom.specs.LeastBoxes.{box_of_tri};
ghost use Rattle.ray_geom.specs.Scene.{tri_value};
ghost use Rattle.ray_lanes.specs.Masks.{AreInt32};
ghost use Rattle.ray_lanes.specs.Overlap.{on_axis};
ghost use Rattle.ray_window.specs.Meets.{Meets, MeetsOn};
ghost use Rattle.ray_walk.specs.Aims.{IsPassed, MeetsPoints};

use ray_bottom::ItemPoints;
use ray_geom::{Point32, Vec3};
use ray_lanes::Window;
use std::simd::prelude::*;

/// Whether there is a window, and it doesn't meet the least box of points.
#[inline(always)]
pub(crate) fn is_passed(window: &Option<Window>, points: &ItemPoints) -> bool
    ensures { IsTrue result → IsPassed window.now points.now }
{
    match window {
        Some(window) => !meets_points(window, points),
        None => false,
    }
}

// Whether a window meets the least box of points, or there are none.
fn meets_points(window: &Window, points: &ItemPoints) -> bool
    ensures { IsTrue result ↔ MeetsPoints window.now points.now }
{
    match points {
        ItemPoints::Triangle { a, b, c } => meets_triangle(window, *a, *b, *c),
        ItemPoints::Aabb { lo, hi } => meets(window, lo.wide(), hi.wide()),
        ItemPoints::Nothing => true,
    }
}

// Whether it meets the least box of a triangle. It doesn't where the vertices are all before it on
// an axis, or all behind it. The axes are lanes of one vector, so that there is one jump and not
// six.
#[inline(always)]
fn meets_triangle(window: &Window, a: Point32, b: Point32, c: Point32) -> bool
    ensures { IsTrue result ↔ Meets window.now (box_of_tri (tri_value a b c)) }
{
    let (lo, hi) = (lanes(window.lo), lanes(window.hi));
    let (a, b, c) = (lanes(a.words()), lanes(b.words()), lanes(c.words()));
    let before = a.simd_lt(lo) & b.simd_lt(lo) & c.simd_lt(lo);
    let behind = a.simd_gt(hi) & b.simd_gt(hi) & c.simd_gt(hi);
    !(before | behind).any()
}

// Three coordinates as a vector, whose last lane is 0.
#[inline(always)]
fn lanes(coordinates: [i32; 3]) -> i32x4
    ensures value { let at = on_axis coordinates in result ≡ at 0 ∷ at 1 ∷ at 2 ∷ pos 0 ∷ [] }
    ensures fit { AreInt32 result }
{
    let [x, y, z] = coordinates;
    i32x4::from_array([x, y, z, 0])
}

// Whether it meets a box.
fn meets(window: &Window, lo: Vec3, hi: Vec3) -> bool
    ensures { IsTrue result ↔ Meets window.now (box_value lo hi) }
{
    if !meets_on(window, 0, lo.x, hi.x) {
        return false;
    }
    if !meets_on(window, 1, lo.y, hi.y) {
        return false;
    }
    meets_on(window, 2, lo.z, hi.z)
}

// Whether it meets what goes from one number to another on an axis.
fn meets_on(window: &Window, axis: usize, lo: i64, hi: i64) -> bool
    requires { axis < 3 }
    ensures { IsTrue result ↔ MeetsOn window.now axis lo hi }
{
    lo <= i64::from(window.hi[axis]) && i64::from(window.lo[axis]) <= hi
}
