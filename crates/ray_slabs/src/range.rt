ghost use Rattle.std.specs.Prelude.{ℕ, ◌≡◌, ◌<◌, ◌≤◌, ◌^◌, ◌*◌, ◌≤ℤ◌, ◌+ℤ◌, pos, IfSome};
ghost use Rattle.ray_window.specs.Meets.{IsUpTo};
ghost use Rattle.ray_slabs.specs.Keys.{key_at};
ghost use Rattle.ray_slabs.specs.Axes.{crossed_by, first_by, last_by};
ghost use Rattle.ray_slabs.specs.Sides.{IsShort};
ghost use Rattle.ray_slabs.specs.Bounds.{AreStored};
ghost use Rattle.ray_slabs.specs.Ranges.{AreShort, IsBetweenKeys, IsInRange, IsRange};
ghost use Rattle.ray_slabs.specs.Ranges.{HoldsByPlanes};

use crate::crossing::high;
use crate::keys::{last_key, part_key};
use crate::planes::Planes;
use crate::slope::{Slope, Slopes};
use ray_geom::{ObjectRay, Ratio};

// The keys from first to last.
#[derive(Clone, Copy)]
pub(crate) struct Range {
    pub(crate) first: i64,
    pub(crate) last: i64,
}

// The keys at which a ray may be between six planes, up to a limit.
pub(crate) fn range_of(
    ray: &ObjectRay,
    root: Planes,
    slopes: Slopes,
    limit: Option<Ratio>,
    shift: u32,
) -> Range
    requires root { AreStored root }
    requires slopes { AreShort slopes }
    requires shift { shift ≤ 62 }
    ensures known { IsRange ray.now shift result }
    ensures holds { HoldsByPlanes ray.now limit shift slopes result root }
{
    let all = whole(ray.tmin(), ray.tmax(), limit, shift);
    let x = narrowed(all, slopes.x, root.lo_x, root.hi_x);
    let y = narrowed(x, slopes.y, root.lo_y, root.hi_y);
    narrowed(y, slopes.z, root.lo_z, root.hi_z)
}

// The keys of the distances from tmin to tmax, up to a limit.
fn whole(tmin: u64, tmax: u64, limit: Option<Ratio>, shift: u32) -> Range
    requires tmin { tmin ≤ 2 ^ 40 }
    requires tmax { tmax ≤ 2 ^ 40 }
    requires shift { shift ≤ 62 }
    ensures first { result.first ≡ pos (key_at shift tmin 65536) }
    ensures last { result.last ≤ℤ pos (key_at shift tmax 65536) }
    ensures holds { (n d : ℕ) → 0 < d → tmin * d ≤ 65536 * n → 65536 * n ≤ tmax * d →
        IsUpTo limit n d → IsInRange result (key_at shift n d) }
{
    Range {
        first: part_key(tmin, shift) as i64,
        last: last_key(tmax, limit, shift) as i64,
    }
}

// The keys of a range at which the ray may be between two planes.
fn narrowed(range: Range, slope: Option<Slope>, lo: u32, hi: u32) -> Range
    requires short { IfSome slope IsShort }
    requires lo { lo ≤ 2 ^ 30 }
    requires hi { hi ≤ 2 ^ 30 }
    ensures first { range.first ≤ℤ result.first }
    ensures last { result.last ≤ℤ range.last }
    ensures holds { (key : ℕ) → IsInRange range key → IsBetweenKeys slope lo hi key →
        IsInRange result key }
{
    match slope {
        Some(slope) => within(range, near(slope, lo, hi), far(slope, lo, hi)),
        None => range,
    }
}

// The keys of a range from near to far.
fn within(range: Range, near: i64, far: i64) -> Range
    ensures first { range.first ≤ℤ result.first }
    ensures last { result.last ≤ℤ range.last }
    ensures holds { (key : ℕ) → IsInRange range key → near ≤ℤ pos key → pos key ≤ℤ far →
        IsInRange result key }
{
    Range {
        first: near.max(range.first),
        last: far.min(range.last),
    }
}

// The key at which the ray comes between two planes, or one that is less.
fn near(slope: Slope, lo: u32, hi: u32) -> i64
    requires short { IsShort slope }
    requires lo { lo ≤ 2 ^ 30 }
    requires hi { hi ≤ 2 ^ 30 }
    ensures { result ≡
        crossed_by slope.falling slope.factor slope.start (first_by slope.falling lo hi) }
{
    if slope.falling {
        slope.start - i64::from(high(hi, slope.factor))
    } else {
        slope.start + i64::from(high(lo, slope.factor))
    }
}

// The key at which it goes out of them, or one that is greater.
fn far(slope: Slope, lo: u32, hi: u32) -> i64
    requires short { IsShort slope }
    requires lo { lo ≤ 2 ^ 30 }
    requires hi { hi ≤ 2 ^ 30 }
    ensures { result ≡
        crossed_by slope.falling slope.factor slope.start (last_by slope.falling lo hi) +ℤ pos 3 }
{
    if slope.falling {
        slope.start - i64::from(high(lo, slope.factor)) + 3
    } else {
        slope.start + i64::from(high(hi, slope.factor)) + 3
    }
}
