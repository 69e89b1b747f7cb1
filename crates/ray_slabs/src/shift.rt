ghost use Rattle.std.specs.Prelude.{◌≤◌};

use ray_geom::Vec3;

// How fine the keys of a ray are: in 2^(shift - 38), the finest in which the factors of all axes
// that aren't nearly flat fit 32 bits. Any other would do.
pub(crate) fn shift_of(det: i64, dir: Vec3) -> u32
    ensures { result ≤ 62 }
{
    let least = least_bits(dir);
    let (x, y, z) = (bits(dir.x), bits(dir.y), bits(dir.z));
    let among = steeper(x, least, steeper(y, least, steeper(z, least, 64)));
    (29 + bits(det)).saturating_sub(among).min(62)
}

// How many bits the way along an axis has at least, unless it is nearly flat: 7 less than the
// longest one, and at least one.
fn least_bits(dir: Vec3) -> u32
    ensures positive { 1 ≤ result }
    ensures short { result ≤ 64 }
{
    let most = bits(dir.x).max(bits(dir.y)).max(bits(dir.z));
    most.saturating_sub(7).max(1)
}

// The least number with so many bits.
pub(crate) fn least_size(dir: Vec3) -> u64 {
    1 << (least_bits(dir) - 1).min(62)
}

// The lesser of the bits of an axis and of those so far, where the axis isn't nearly flat.
fn steeper(bits: u32, least: u32, so_far: u32) -> u32 {
    if least <= bits {
        bits.min(so_far)
    } else {
        so_far
    }
}

// How many bits the size of a number has.
fn bits(number: i64) -> u32
    ensures { result ≤ 64 }
{
    64 - number.unsigned_abs().leading_zeros()
}
