//! The bits of a number.
ghost use Rattle.std.specs.Prelude.{ℕ, ◌<◌, ◌≤◌};
ghost use Rattle.ray_lanes.specs.Overlap.{HasBit};

// The first bit of a number that is set, of those from a place on; 8 where none is.
pub(crate) fn next_bit(number: u8, from: u32) -> u32
    requires { from ≤ 8 }
    ensures from { from ≤ result }
    ensures most { result ≤ 8 }
    ensures set { result < 8 → HasBit number result }
    ensures clear { (k : ℕ) → from ≤ k → k < result → ¬ HasBit number k }
{
    let rest = u32::from(number) >> from;
    if rest == 0 {
        8
    } else {
        (from + rest.trailing_zeros()).min(8)
    }
}
