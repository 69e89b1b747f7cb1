ghost use Rattle.std.specs.Prelude.{◌≡◌, ◌≤◌, ◌^◌, ◌-◌, ◌≤ℤ◌, pos};
ghost use Rattle.ray_slabs.specs.Keys.{high_half};
ghost use Rattle.ray_slabs.specs.Axes.{near_of, far_of, beyond, IsSafe};

use crate::axis::Axis;

// A key that is beyond all that are compared with it.
pub(crate) const BEYOND: i32 = i32::MAX - 31;

// The key at which the ray comes between two planes, or one that is less.
pub(crate) fn near(axis: Axis, lo: u32, hi: u32) -> i32
    requires safe { IsSafe axis }
    requires lo { lo ≤ 2 ^ 30 }
    requires hi { hi ≤ 2 ^ 30 }
    ensures value { result ≡ near_of axis lo hi }
    ensures short { result ≤ℤ beyond }
{
    match axis {
        Axis::Rising { factor, start } => start + high(lo, factor),
        Axis::Falling { factor, start } => start - high(hi, factor),
        Axis::Flat { from, to } => {
            if lo as i32 <= to && from <= hi as i32 {
                i32::MIN
            } else {
                BEYOND
            }
        }
    }
}

// The key at which the ray goes out of them, or one that is greater.
pub(crate) fn far(axis: Axis, lo: u32, hi: u32) -> i32
    requires safe { IsSafe axis }
    requires lo { lo ≤ 2 ^ 30 }
    requires hi { hi ≤ 2 ^ 30 }
    ensures { result ≡ far_of axis lo hi }
{
    match axis {
        Axis::Rising { factor, start } => start + high(hi, factor) + 3,
        Axis::Falling { factor, start } => start - high(lo, factor) + 3,
        Axis::Flat { .. } => BEYOND,
    }
}

// The high half of a product.
pub(crate) fn high(plane: u32, factor: u32) -> i32
    requires { plane ≤ 2 ^ 30 }
    ensures value { result ≡ pos (high_half plane factor) }
    ensures short { high_half plane factor ≤ 2 ^ 30 }
{
    ((u64::from(plane) * u64::from(factor)) >> 32) as i32
}
