//! The slab test on one axis, of eight boxes at once.
ghost use Rattle.std.specs.Prelude.{◌≡◌, length};
ghost use Rattle.ray_slabs.specs.AxisRows.{IsFit, near_row, far_row, lifted_far};

use crate::axis::Axis;
use crate::rows::{high_row, lifted, over, overlap_row, under};
use std::simd::prelude::*;

// A key that is beyond all that are compared with it, with 2^31 more.
const LIFTED_BEYOND: u32 = u32::MAX - 31;

// The keys at which the ray comes between planes, or less, with 2^31 more.
#[inline(always)]
pub(crate) fn near_row(axis: Axis, lo: u32x8, hi: u32x8) -> u32x8
    requires lo { length lo ≡ 8 }
    requires hi { length hi ≡ 8 }
    ensures value { result ≡ near_row axis lo hi }
    ensures fit { IsFit axis }
{
    match axis {
        Axis::Rising { factor, start } => over(lifted(start), high_row(lo, factor)),
        Axis::Falling { factor, start } => under(lifted(start), high_row(hi, factor)),
        Axis::Flat { from, to } => { overlap_row(lo, hi, lifted(from), lifted(to), LIFTED_BEYOND) }
    }
}

// The keys at which it goes out of them, or more, with 2^31 more.
#[inline(always)]
pub(crate) fn far_row(axis: Axis, lo: u32x8, hi: u32x8) -> u32x8
    requires lo { length lo ≡ 8 }
    requires hi { length hi ≡ 8 }
    ensures value { result ≡ far_row axis lo hi }
    ensures fit { IsFit axis }
{
    match axis {
        Axis::Rising { factor, start } => over(lifted_far(start), high_row(hi, factor)),
        Axis::Falling { factor, start } => under(lifted_far(start), high_row(lo, factor)),
        Axis::Flat { .. } => u32x8::splat(LIFTED_BEYOND),
    }
}

// A key that is 3 more, with 2^31 more.
#[inline(always)]
fn lifted_far(start: i32) -> u32
    ensures { result ≡ lifted_far start }
{
    lifted(start).wrapping_add(3)
}
