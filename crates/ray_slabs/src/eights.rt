//! The slab test of eight boxes at once.
ghost use Rattle.std.specs.Prelude.{ℕ, ◌≡◌, ◌<◌, ◌≤◌, ◌↔◌, ◌-◌, ◌^◌, length, replicate, slice_index_or};
ghost use Rattle.ray_lanes.specs.Overlap.{HasBit};
ghost use Rattle.ray_slabs.specs.Axes.{IsSafe};
ghost use Rattle.ray_slabs.specs.Eights.{AreBoundsAt, IsFarRow, IsNearRow};
ghost use Rattle.ray_slabs.specs.Rows.{greater_row, lesser_row, lifted};

use crate::axis::Axis;
use crate::axis_rows::{far_row, near_row};
use crate::rows::{greater_row, lesser_row, lifted, planes_row};
use crate::slabs::Slabs;
use ray_lanes::Lanes8;
use std::simd::prelude::*;

/// What the slab test says of eight boxes. (Own.)
#[derive(Clone, Copy, Debug)]
pub struct Bounds8 {
    /// A bit for each box that may be met.
    pub met: u8,
    /// The key of each box, as that of a `Bound`.
    pub keys: [u32; 8],
}

impl Slabs {
    /// The slab test of eight boxes, without a limit. Of lanes without a box nothing is said.
    pub fn test8(&self, lanes: &Lanes8) -> Bounds8
        ensures { AreBoundsAt self.now lanes.now result }
    {
        let entry = entries(
            near8(self.x, &lanes.lo[0], &lanes.hi[0]),
            near8(self.y, &lanes.lo[1], &lanes.hi[1]),
            near8(self.z, &lanes.lo[2], &lanes.hi[2]),
        );
        let exit = exits(
            lifted(self.last),
            far8(self.x, &lanes.lo[0], &lanes.hi[0]),
            far8(self.y, &lanes.lo[1], &lanes.hi[1]),
            far8(self.z, &lanes.lo[2], &lanes.hi[2]),
        );
        Bounds8 {
            met: at_most(entry, exit),
            keys: keys_of(entry),
        }
    }
}

// The keys at which a ray comes between the planes of eight boxes on one axis.
#[inline(always)]
fn near8(axis: Axis, lo: &[i32; 8], hi: &[i32; 8]) -> u32x8
    requires { IsSafe axis }
    ensures { IsNearRow axis lo.now hi.now result }
{
    near_row(axis, planes_row(lo), planes_row(hi))
}

// And those at which it goes out of them.
#[inline(always)]
fn far8(axis: Axis, lo: &[i32; 8], hi: &[i32; 8]) -> u32x8
    requires { IsSafe axis }
    ensures { IsFarRow axis lo.now hi.now result }
{
    far_row(axis, planes_row(lo), planes_row(hi))
}

// The greatest of key 0 and three rows.
#[inline(always)]
fn entries(x: u32x8, y: u32x8, z: u32x8) -> u32x8
    ensures { result ≡ greater_row (greater_row (greater_row (replicate 8 (2 ^ 31)) x) y) z }
{
    greater_row(greater_row(greater_row(u32x8::splat(1 << 31), x), y), z)
}

// The least of a key and three rows.
#[inline(always)]
fn exits(last: u32, x: u32x8, y: u32x8, z: u32x8) -> u32x8
    ensures { result ≡ lesser_row (lesser_row (lesser_row (replicate 8 last) x) y) z }
{
    lesser_row(lesser_row(lesser_row(u32x8::splat(last), x), y), z)
}

// A bit for each number that is at most the other.
#[inline(always)]
fn at_most(a: u32x8, b: u32x8) -> u8
    requires a { length a ≡ 8 }
    requires b { length b ≡ 8 }
    ensures { (k : ℕ) → k < 8 →
        HasBit result k ↔ (slice_index_or a k 0 ≤ slice_index_or b k 0) }
{
    a.simd_le(b).to_bitmask() as u8
}

// Keys without the 2^31 more.
#[inline(always)]
fn keys_of(row: u32x8) -> [u32; 8]
    requires { length row ≡ 8 }
    ensures { (k : ℕ) → k < 8 → 2 ^ 31 ≤ slice_index_or row k 0 →
        slice_index_or result k 0 ≡ slice_index_or row k 0 - 2 ^ 31 }
{
    (row - u32x8::splat(1 << 31)).to_array()
}
