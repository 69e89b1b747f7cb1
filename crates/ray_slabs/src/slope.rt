ghost use Rattle.std.specs.Prelude.{◌≡◌, ◌<◌, ◌≤◌, ◌^◌, ◌*◌, ◌+◌, IfSome, unsigned_abs, pos, ◌*ℤ◌};
ghost use Rattle.ray_geom.specs.Vector.{IsWithin};
ghost use Rattle.ray_window.specs.Lines.{IsLine, AreLines};
ghost use Rattle.ray_slabs.specs.Slopes.{is_falling, way_of, back_of, IsFloor, IsMade, IsSlope};
ghost use Rattle.ray_slabs.specs.Sides.{IsShort};
ghost use Rattle.ray_slabs.specs.Ranges.{AreSlopes, AreShort};

use crate::rounding::{floor_by, power};
use ray_geom::Vec3;

// On one axis along which a ray moves, the keys at which it crosses planes, as a linear function of
// the plane.
#[derive(Clone, Copy)]
pub(crate) struct Slope {
    // Whether lesser planes are crossed later.
    pub(crate) falling: bool,
    // How far apart the keys are of planes that are 2^-10 apart, in 2^-32.
    pub(crate) factor: u32,
    // The key of the plane at -2^19, rounded down, and 2 less where it is falling.
    pub(crate) start: i64,
}

// The slopes of the three axes, of those that have one.
#[derive(Clone, Copy)]
pub(crate) struct Slopes {
    pub(crate) x: Option<Slope>,
    pub(crate) y: Option<Slope>,
    pub(crate) z: Option<Slope>,
}

// The slope of an axis. None where the ray moves along it by less than `least`, or where a number
// doesn't fit.
pub(crate) fn slope_of(det: i64, o: i64, m: i64, shift: u32, least: u64) -> Option<Slope>
    requires line { IsLine det o m }
    requires shift { shift ≤ 62 }
    ensures slope { IfSome result (IsSlope det o m shift) }
    ensures short { IfSome result IsShort }
{
    let size = m.unsigned_abs();
    if size == 0 || size < least {
        return None;
    }
    let speed = u128::from(size) * u128::from(power(shift));
    let factor = factor_of(det.unsigned_abs(), speed);
    let falling = is_falling(det, m);
    let way = way_of(falling, det.unsigned_abs(), back_of(o, m));
    made(falling, factor, offset_of(way, speed))
}

// The slopes of a ray.
pub(crate) fn slopes_of(det: i64, origin: Vec3, dir: Vec3, shift: u32, least: u64) -> Slopes
    requires lines { AreLines det origin dir }
    requires shift { shift ≤ 62 }
    ensures slopes { AreSlopes det origin dir shift result }
    ensures short { AreShort result }
{
    Slopes {
        x: slope_of(det, origin.x, dir.x, shift, least),
        y: slope_of(det, origin.y, dir.y, shift, least),
        z: slope_of(det, origin.z, dir.z, shift, least),
    }
}

// |det| 2^60 / speed, rounded down.
fn factor_of(size: u64, speed: u128) -> u128
    requires { 0 < speed }
    ensures below { result * speed ≤ size * 2 ^ 60 }
    ensures above { size * 2 ^ 60 ≤ (result + 1) * speed }
{
    u128::from(size) * (1 << 60) / speed
}

// Whether lesser planes are crossed later.
fn is_falling(det: i64, m: i64) -> bool
    ensures { result ≡ is_falling det m }
{
    (det < 0) != (m < 0)
}

// How far it is back to the origin, along the ray.
fn back_of(o: i64, m: i64) -> i64
    requires { IsWithin (2 ^ 59) o }
    ensures value { result ≡ back_of o m }
    ensures short { IsWithin (2 ^ 59) result }
{
    if m < 0 { o } else { -o }
}

// The way to the plane at -2^19.
fn way_of(falling: bool, size: u64, back: i64) -> i64
    requires back { IsWithin (2 ^ 59) back }
    requires size { size ≤ 6 * 2 ^ 36 }
    ensures value { result ≡ way_of falling size back }
    ensures short { IsWithin (2 ^ 60) result }
{
    let lift = (size * 524288) as i64;
    if falling { back + lift } else { back - lift }
}

// A way as an offset, rounded down.
fn offset_of(way: i64, speed: u128) -> i128
    requires positive { 0 < speed }
    requires short { IsWithin (2 ^ 60) way }
    ensures { IsFloor (way *ℤ pos (2 ^ 38)) speed result }
{
    floor_by(i128::from(way) * (1 << 38), speed)
}

// The slope with these numbers, where they fit.
fn made(falling: bool, factor: u128, offset: i128) -> Option<Slope>
    ensures { IfSome result (IsMade falling factor offset) }
{
    if factor < 1 << 32 && -(1 << 61) <= offset && offset <= 1 << 61 {
        let start = if falling { offset - 2 } else { offset };
        Some(Slope {
            falling,
            factor: factor as u32,
            start: start as i64,
        })
    } else {
        None
    }
}
