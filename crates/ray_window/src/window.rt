ghost use Rattle.std.specs.Prelude.{◌≡◌, ◌<◌, ◌^◌, ℕ, Option};
ghost use Rattle.std.specs.Prelude.{pos, unsigned_abs, neg_ℤ, ◌+ℤ◌, ◌*ℤ◌};
ghost use Rattle.ray_geom.specs.declared.ratio.Ratio.{Ratio};
ghost use Rattle.ray_geom.specs.Ratio.{earlier_of};
ghost use Rattle.ray_geom.specs.Vector.{IsShort};
ghost use Rattle.ray_prune.specs.BoxSpan.{IsInside};
ghost use Rattle.ray_lanes.specs.Padding.{IsNear};
ghost use Rattle.ray_window.specs.Lines.{IsLine, AreLines, SumFits, turned_point};
ghost use Rattle.ray_window.specs.Windows.{floor_of, ceiling_of, moved};
ghost use Rattle.ray_window.specs.Windows.{below_at, above_at, begins_at, ends_at};
ghost use Rattle.ray_window.specs.Windows.{last_of, window_to, window_of};
ghost use Rattle.ray_window.specs.Meets.{IsUpTo, Meets};

use crate::line::Line;
use crate::quotients::{rounded, rounded_whole};
use crate::side::Side;
use ray_geom::{Box3, ObjectRay, Ratio, Vec3};
use ray_lanes::Window;

/// The window of a ray: on each axis the greatest whole number that is at most where the ray is
/// from tmin to tmax, or to the limit where that is less, and the least that is at least there,
/// both moved into -2^30 to 2^30. That changes no answer, since boxes lie from -2^19 to 2^19. Where
/// the limit is before tmin nothing is inside up to it, and the window goes from the one to the
/// other. (Own.)
pub fn window_of(ray: &ObjectRay, limit: Option<Ratio>) -> Window
    ensures value { result ≡ window_of ray.now limit }
{
    let last = last(ray.tmax(), limit);
    let (det, origin, dir) = (ray.det(), ray.origin(), ray.dir());
    window_to(det, origin, dir, ray.tmin(), last.num, last.den)
}

// The distance up to which a window goes.
#[tactic(auto, unfolding(crate::specs::Windows::last_of))]
fn last(tmax: u64, limit: Option<Ratio>) -> Ratio
    ensures num { result.num ≡ (last_of tmax limit).num }
    ensures den { result.den ≡ (last_of tmax limit).den }
{
    let most = Ratio::part(tmax);
    match limit {
        None => most,
        Some(limit) => earlier(most, limit),
    }
}

// The lesser of two distances.
fn earlier(a: Ratio, b: Ratio) -> Ratio
    ensures num { result.num ≡ (earlier_of a b).num }
    ensures den { result.den ≡ (earlier_of a b).den }
{
    if a <= b { a } else { b }
}

// The window from tmin to the distance n / d.
fn window_to(det: i64, origin: Vec3, dir: Vec3, tmin: u64, n: u64, d: u64) -> Window
    requires lines { AreLines det origin dir }
    requires den { 0 < d }
    ensures { result ≡ window_to det origin dir tmin n d }
{
    let line = upright(det, origin, dir);
    window_along(line.det, line.origin, line.dir, tmin, n, d)
}

// The line of a ray with a determinant above 0. Where it is negative all are turned at once, which
// is seldom.
fn upright(det: i64, origin: Vec3, dir: Vec3) -> Line
    requires { AreLines det origin dir }
    ensures det { result.det ≡ unsigned_abs det }
    ensures origin { result.origin ≡ turned_point det origin }
    ensures dir { result.dir ≡ turned_point det dir }
{
    let size = det.unsigned_abs();
    if det < 0 {
        Line {
            det: size,
            origin: opposite(origin),
            dir: opposite(dir),
        }
    } else {
        Line {
            det: size,
            origin,
            dir,
        }
    }
}

// The point on the other side of 0.
fn opposite(v: Vec3) -> Vec3
    requires { IsShort (2 ^ 62) v }
    ensures x { result.x ≡ neg_ℤ v.x }
    ensures y { result.y ≡ neg_ℤ v.y }
    ensures z { result.z ≡ neg_ℤ v.z }
{
    Vec3 {
        x: -v.x,
        y: -v.y,
        z: -v.z,
    }
}

// The window from tmin to the distance n / d, for a determinant above 0.
#[tactic(auto, unfolding(crate::specs::Windows::window_to))]
fn window_along(det: u64, origin: Vec3, dir: Vec3, tmin: u64, n: u64, d: u64) -> Window
    requires lines { AreLines (pos det) origin dir }
    requires den { 0 < d }
    ensures { result ≡ window_to (pos det) origin dir tmin n d }
{
    let x = side_of(det, origin.x, dir.x, tmin, n, d);
    let y = side_of(det, origin.y, dir.y, tmin, n, d);
    let z = side_of(det, origin.z, dir.z, tmin, n, d);
    Window {
        lo: [x.lo, y.lo, z.lo],
        hi: [x.hi, y.hi, z.hi],
    }
}

// On one axis, from where to where a window goes. Where the ray doesn't move along the axis that is
// where it begins.
#[inline(always)]
fn side_of(det: u64, o: i64, m: i64, tmin: u64, n: u64, d: u64) -> Side
    requires line { IsLine (pos det) o m }
    requires den { 0 < d }
    ensures lo { result.lo ≡ begins_at (pos det) o m tmin n d }
    ensures hi { result.hi ≡ ends_at (pos det) o m tmin n d }
{
    if m == 0 {
        return start(det, o);
    }
    let a = first_side(det, o, m, tmin);
    let b = side_at(det, o, m, n, d);
    Side {
        lo: a.lo.min(b.lo),
        hi: a.hi.max(b.hi),
    }
}

// On one axis, where the ray is at tmin, rounded down and up. At 0 the fraction over the
// determinant alone has the same value and takes less.
fn first_side(det: u64, o: i64, m: i64, tmin: u64) -> Side
    requires { IsLine (pos det) o m }
    ensures lo { result.lo ≡ below_at (pos det) o m tmin 65536 }
    ensures hi { result.hi ≡ above_at (pos det) o m tmin 65536 }
{
    if tmin == 0 {
        start(det, o)
    } else {
        later_side(det, o, m, tmin)
    }
}

// The same where tmin is not 0, which is seldom.
#[inline(never)]
fn later_side(det: u64, o: i64, m: i64, tmin: u64) -> Side
    requires { IsLine (pos det) o m }
    ensures lo { result.lo ≡ below_at (pos det) o m tmin 65536 }
    ensures hi { result.hi ≡ above_at (pos det) o m tmin 65536 }
{
    side_at(det, o, m, tmin, 65536)
}

// On one axis, where the ray begins, rounded down and up.
fn start(det: u64, o: i64) -> Side
    requires { 0 < det }
    ensures lo { result.lo ≡ moved (floor_of o det) }
    ensures hi { result.hi ≡ moved (ceiling_of o det) }
{
    rounded_whole(o, det)
}

// On one axis, where the ray is at the distance n / d, rounded down and up.
#[tactic(auto, unfolding(crate::specs::Windows::spot_of, crate::specs::Windows::below_at, crate::specs::Windows::above_at))]
#[inline(always)]
fn side_at(det: u64, o: i64, m: i64, n: u64, d: u64) -> Side
    requires line { IsLine (pos det) o m }
    requires den { 0 < d }
    ensures lo { result.lo ≡ below_at (pos det) o m n d }
    ensures hi { result.hi ≡ above_at (pos det) o m n d }
{
    let spot = sum(i128::from(o), i128::from(m), i128::from(n), i128::from(d));
    rounded(spot, u128::from(det) * u128::from(d))
}

// o d + n m.
fn sum(o: i128, m: i128, n: i128, d: i128) -> i128
    requires { SumFits o m n d }
    ensures { result ≡ (o *ℤ d) +ℤ (n *ℤ m) }
{
    o * d + n * m
}

/// The law of windows: a box in which the ray is at a distance up to the limit is met by the window
/// of that limit, and no number of a window is far from 0, so that a lane without a box overlaps
/// none. (Own.)
pub fn window_law(_ray: &ObjectRay, _b: &Box3)
    ensures met { (limit : Option Ratio) (n d : ℕ) → 0 < d → IsInside _ray.now _b.now n d →
        IsUpTo limit n d → Meets (window_of _ray.now limit) _b.now }
    ensures near { (limit : Option Ratio) → IsNear (window_of _ray.now limit) }
{
    // The determinant isn't 0, and the box is within the limits.
    let _det = _ray.det();
    let _lo = _b.lo();
}
