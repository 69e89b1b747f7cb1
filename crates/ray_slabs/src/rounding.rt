ghost use Rattle.std.specs.Prelude.{◌≡◌, ◌<◌, ◌≤◌, ◌^◌};
ghost use Rattle.ray_geom.specs.Vector.{IsWithin};
ghost use Rattle.ray_slabs.specs.Slopes.{IsFloor};
ghost use Rattle.ray_window.specs.Windows.{floor_of};

// A fraction rounded down.
pub(crate) fn floor_by(p: i128, q: u128) -> i128
    requires positive { 0 < q }
    requires short { IsWithin (2 ^ 126) p }
    ensures value { result ≡ floor_of p q }
{
    let size = p.unsigned_abs();
    if p < 0 {
        -(size.div_ceil(q) as i128)
    } else {
        (size / q) as i128
    }
}

// The same in 64 bits.
pub(crate) fn floor_short(p: i64, q: u64) -> i64
    requires positive { 0 < q }
    requires short { IsWithin (2 ^ 59) p }
    ensures value { result ≡ floor_of p q }
    ensures short { IsWithin (2 ^ 59) result }
{
    let size = p.unsigned_abs();
    if p < 0 {
        -(size.div_ceil(q) as i64)
    } else {
        (size / q) as i64
    }
}

// A power of two.
pub(crate) fn power(exponent: u32) -> u64
    requires { exponent ≤ 62 }
    ensures value { result ≡ 2 ^ exponent }
    ensures short { result ≤ 2 ^ 62 }
{
    1 << exponent
}
