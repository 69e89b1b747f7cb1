ghost use Rattle.std.specs.Prelude.{◌≡◌, ◌<◌, ◌↔◌, ℕ, IsTrue, length};
ghost use Rattle.ray_lanes.specs.Overlap.{HasBit, Overlaps, OverlapsOn};
ghost use Rattle.ray_lanes.specs.Masks.{AreInt32, axis_tests, mask_of};

use crate::lanes::{Lanes8, Window};
use std::simd::prelude::*;

/// Which of eight boxes a window overlaps: bit k is set exactly where box k does.
pub fn overlap8(lanes: &Lanes8, window: &Window) -> u8
    ensures { (k : ℕ) → k < 8 → HasBit result k ↔ Overlaps lanes.now window.now k }
{
    let x = overlap_axis(&lanes.lo[0], &lanes.hi[0], window.lo[0], window.hi[0]);
    let y = overlap_axis(&lanes.lo[1], &lanes.hi[1], window.lo[1], window.hi[1]);
    let z = overlap_axis(&lanes.lo[2], &lanes.hi[2], window.lo[2], window.hi[2]);
    (x & y & z).to_bitmask() as u8
}

// The mask of the boxes that a window overlaps on one axis.
#[inline(always)]
fn overlap_axis(lo: &[i32; 8], hi: &[i32; 8], from: i32, to: i32) -> Mask<i32, 8>
    ensures mask { result ≡ mask_of (axis_tests from to lo.now hi.now) }
    ensures lo { length lo.now ≡ 8 }
    ensures hi { length hi.now ≡ 8 }
{
    let lo = load(lo);
    let hi = load(hi);
    lo.simd_le(i32x8::splat(to)) & i32x8::splat(from).simd_le(hi)
}

// Eight numbers as one vector.
#[inline(always)]
fn load(numbers: &[i32; 8]) -> i32x8
    ensures same { result ≡ numbers.now }
    ensures fit { AreInt32 result }
{
    let [a, b, c, d, e, f, g, h] = *numbers;
    i32x8::from_array([a, b, c, d, e, f, g, h])
}

/// Whether a window overlaps one of eight boxes, number by number.
pub fn overlaps(lanes: &Lanes8, window: &Window, k: usize) -> bool
    requires { k < 8 }
    ensures { IsTrue result ↔ Overlaps lanes.now window.now k }
{
    overlaps_on(lanes, window, k, 0)
        && overlaps_on(lanes, window, k, 1)
        && overlaps_on(lanes, window, k, 2)
}

// Whether they overlap on one axis.
fn overlaps_on(lanes: &Lanes8, window: &Window, k: usize, axis: usize) -> bool
    requires axis { axis < 3 }
    requires lane { k < 8 }
    ensures { IsTrue result ↔ OverlapsOn lanes.now window.now k axis }
{
    lanes.lo[axis][k] <= window.hi[axis] && window.lo[axis] <= lanes.hi[axis][k]
}
