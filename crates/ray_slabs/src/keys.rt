ghost use Rattle.std.specs.Prelude.{ℕ, ◌≡◌, ◌<◌, ◌≤◌, ◌^◌, ◌*◌, Option};
ghost use Rattle.ray_window.specs.Meets.{IsUpTo};
ghost use Rattle.ray_slabs.specs.Keys.{key_at};

use crate::rounding::power;
use ray_geom::Ratio;

// The key of a distance in 1/65536.
pub(crate) fn part_key(parts: u64, shift: u32) -> u64
    requires parts { parts ≤ 2 ^ 40 }
    requires shift { shift ≤ 62 }
    ensures value { result ≡ key_at shift parts 65536 }
    ensures short { result ≤ 2 ^ 62 }
{
    (parts * (1 << 22)) >> shift
}

// The key of a ratio.
fn ratio_key(ratio: Ratio, shift: u32) -> u128
    requires { shift ≤ 62 }
    ensures { result ≡ key_at shift ratio.num ratio.den }
{
    let parts = u128::from(ratio.den) * u128::from(power(shift));
    u128::from(ratio.num) * (1 << 38) / parts
}

// The greatest key of a distance up to tmax, and up to the limit.
pub(crate) fn last_key(tmax: u64, limit: Option<Ratio>, shift: u32) -> u64
    requires tmax { tmax ≤ 2 ^ 40 }
    requires shift { shift ≤ 62 }
    ensures holds { (n d : ℕ) → 0 < d → 65536 * n ≤ tmax * d → IsUpTo limit n d →
        key_at shift n d ≤ result }
    ensures known { result ≤ key_at shift tmax 65536 }
    ensures short { result ≤ 2 ^ 62 }
{
    let most = part_key(tmax, shift);
    match limit {
        None => most,
        Some(limit) => lesser(most, ratio_key(limit, shift)),
    }
}

// The lesser of two keys.
fn lesser(a: u64, b: u128) -> u64
    ensures below { result ≤ a }
    ensures at_most { result ≤ b }
    ensures least { (k : ℕ) → k ≤ a → k ≤ b → k ≤ result }
{
    if u128::from(a) <= b { a } else { b as u64 }
}
