ghost use Rattle.std.specs.Prelude.{ℕ, ℤ, ◌≡◌, ◌<◌, ◌≤◌, ◌^◌, ◌+◌, IfSome, true, false};
ghost use Rattle.std.specs.Prelude.{pos, neg_ℤ, ◌+ℤ◌, ◌*ℤ◌};
ghost use Rattle.ray_geom.specs.Vector.{IsWithin};
ghost use Rattle.ray_window.specs.Lines.{IsLine};
ghost use Rattle.ray_window.specs.Windows.{turned};
ghost use Rattle.ray_slabs.specs.Slopes.{IsSlope};
ghost use Rattle.ray_slabs.specs.Sides.{IsShort, IsSide, IsSloped, IsSafeBy};
ghost use Rattle.ray_slabs.specs.Sides.{still_axis, stored_from, stored_to, flat_axis};

use crate::axis::Axis;
use crate::rounding::floor_short;
use crate::slope::Slope;

// The numbers of a ray on one axis: it begins at o / det and goes along m / det.
#[derive(Clone, Copy)]
pub(crate) struct Way {
    pub(crate) det: i64,
    pub(crate) o: i64,
    pub(crate) m: i64,
}

// What is compared on one axis, and whether a box in it with a margin is met on that axis.
#[derive(Clone, Copy)]
pub(crate) struct Side {
    pub(crate) axis: Axis,
    pub(crate) exact: bool,
}

// What is compared on an axis: its slope, where there is one and its keys fit; else where the ray
// stands still, or from where to where it is while it is inside the root's box. An exact side is
// none of the last kind, so that it stands for the axis whatever that window is.
pub(crate) fn side_of(slope: Option<Slope>, base: u64, line: Way, from: i32, to: i32) -> Side
    requires line { IsLine line.det line.o line.m }
    requires start { IfSome slope IsShort }
    requires base { base ≤ 2 ^ 62 }
    ensures made { (shift : ℕ) → IfSome slope (IsSlope line.det line.o line.m shift) →
        IsSide line.det line.o line.m shift base from to result }
    ensures free { result.exact ≡ true → (shift : ℕ) (a b : ℤ) →
        IfSome slope (IsSlope line.det line.o line.m shift) →
        IsSide line.det line.o line.m shift base a b result }
{
    match slope {
        Some(slope) => match sloped(slope, base) {
            Some(axis) => Side { axis, exact: true },
            None => flat_side(line, from, to),
        },
        None => flat_side(line, from, to),
    }
}

// The same where there is no slope.
fn flat_side(line: Way, from: i32, to: i32) -> Side
    requires { IsLine line.det line.o line.m }
    ensures made { (shift base : ℕ) → IsSide line.det line.o line.m shift base from to result }
    ensures free { result.exact ≡ true → (shift base : ℕ) (a b : ℤ) →
        IsSide line.det line.o line.m shift base a b result }
{
    if line.m == 0 {
        Side {
            axis: still(line.det, line.o),
            exact: true,
        }
    } else {
        Side {
            axis: flat(i64::from(from), i64::from(to)),
            exact: false,
        }
    }
}

// An axis with a slope, where its keys fit.
fn sloped(slope: Slope, base: u64) -> Option<Axis>
    requires start { IsShort slope }
    requires base { base ≤ 2 ^ 62 }
    ensures { IfSome result (IsSloped slope base) }
{
    let start = slope.start - base as i64;
    if slope.falling {
        falling(slope.factor, start)
    } else {
        rising(slope.factor, start)
    }
}

// An axis along which greater planes are crossed later, where its keys fit.
fn rising(factor: u32, start: i64) -> Option<Axis>
    ensures { IfSome result (IsSafeBy false factor start) }
{
    if -(1 << 31) <= start && start <= (1 << 30) - 64 {
        Some(Axis::Rising {
            factor,
            start: start as i32,
        })
    } else {
        None
    }
}

// An axis along which lesser planes are crossed later, where its keys fit.
fn falling(factor: u32, start: i64) -> Option<Axis>
    ensures { IfSome result (IsSafeBy true factor start) }
{
    if -(1 << 30) <= start && start <= (1 << 31) - 64 {
        Some(Axis::Falling {
            factor,
            start: start as i32,
        })
    } else {
        None
    }
}

// An axis on which the ray stands still.
fn still(det: i64, o: i64) -> Axis
    requires { IsLine det o (pos 0) }
    ensures { result ≡ still_axis det o }
{
    let p = turned(det, o);
    let floor = floor_short(p, det.unsigned_abs());
    let back = floor_short(-p, det.unsigned_abs());
    flat(-back, floor)
}

// p, or -p where det is negative.
fn turned(det: i64, p: i64) -> i64
    requires { IsWithin (2 ^ 59) p }
    ensures value { result ≡ turned det p }
    ensures short { IsWithin (2 ^ 59) result }
{
    if det < 0 { -p } else { p }
}

// An axis on which planes have to overlap what lies from `from` to `to`.
fn flat(from: i64, to: i64) -> Axis
    ensures { result ≡ flat_axis from to }
{
    Axis::Flat {
        from: stored_from(from),
        to: stored_to(to),
    }
}

// A number as the least stored plane that is at least it, moved to where planes lie.
fn stored_from(w: i64) -> i32
    ensures { result ≡ stored_from w }
{
    stored(w.min((1 << 19) + 1).max(-(1 << 19)))
}

// A number as the greatest stored plane that is at most it, moved likewise.
fn stored_to(w: i64) -> i32
    ensures { result ≡ stored_to w }
{
    stored(w.min(1 << 19).max(-(1 << 19) - 1))
}

// A number as a stored plane.
fn stored(p: i64) -> i32
    requires { IsWithin (2 ^ 19 + 1) p }
    ensures { result ≡ (p +ℤ pos (2 ^ 19)) *ℤ pos 1024 }
{
    let lifted = p + (1 << 19);
    (lifted * 1024) as i32
}
