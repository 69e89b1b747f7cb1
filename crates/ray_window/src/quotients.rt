ghost use Rattle.std.specs.Prelude.{◌≡◌, ◌<◌, ◌/◌, ◌^◌, min, pos, neg_ℤ};
ghost use Rattle.std.specs.Int.{div_ceil, w32};
ghost use Rattle.std.specs.Int.RustNames.{FitsSigned};
ghost use Rattle.ray_window.specs.Windows.{floor_of, ceiling_of, moved};

use crate::side::Side;

// A fraction rounded down and up, both moved into -2^30 to 2^30. Nearly all of them fit in 64 bits.
#[inline(always)]
pub(crate) fn rounded(p: i128, q: u128) -> Side
    requires { 0 < q }
    ensures lo { result.lo ≡ moved (floor_of p q) }
    ensures hi { result.hi ≡ moved (ceiling_of p q) }
{
    if i64::MIN as i128 <= p && p <= i64::MAX as i128 && q <= u64::MAX as u128 {
        rounded_short(p as i64, q as u64)
    } else {
        rounded_long(p, q)
    }
}

// The same in 64 bits. Most divisors are 65536, since the determinants of most instances are 1 or
// -1.
fn rounded_short(p: i64, q: u64) -> Side
    requires { 0 < q }
    ensures lo { result.lo ≡ moved (floor_of p q) }
    ensures hi { result.hi ≡ moved (ceiling_of p q) }
{
    if q == 65536 { parts(p) } else { divided(p, q) }
}

// The same where the divisor is a determinant, so that most are 1.
pub(crate) fn rounded_whole(p: i64, q: u64) -> Side
    requires { 0 < q }
    ensures lo { result.lo ≡ moved (floor_of p q) }
    ensures hi { result.hi ≡ moved (ceiling_of p q) }
{
    if q == 1 { whole(p) } else { divided(p, q) }
}

// The same for the divisor 1, which leaves the number as it is.
fn whole(p: i64) -> Side
    ensures lo { result.lo ≡ moved (floor_of p 1) }
    ensures hi { result.hi ≡ moved (ceiling_of p 1) }
{
    let near = p.min(1 << 30).max(-(1 << 30)) as i32;
    Side { lo: near, hi: near }
}

// The same for the divisor 65536, by shifts, which round down also what is below 0.
fn parts(p: i64) -> Side
    ensures lo { result.lo ≡ moved (floor_of p 65536) }
    ensures hi { result.hi ≡ moved (ceiling_of p 65536) }
{
    let near = p.min(1 << 46).max(-(1 << 46));
    Side {
        lo: (near >> 16) as i32,
        hi: ((near + 65535) >> 16) as i32,
    }
}

// The same for any divisor.
#[inline(never)]
fn divided(p: i64, q: u64) -> Side
    requires { 0 < q }
    ensures lo { result.lo ≡ moved (floor_of p q) }
    ensures hi { result.hi ≡ moved (ceiling_of p q) }
{
    let size = quotients(p.unsigned_abs(), q);
    if p < 0 { opposite(size) } else { size }
}

// The same in 128 bits, of which divisions take longer.
#[inline(never)]
fn rounded_long(p: i128, q: u128) -> Side
    requires { 0 < q }
    ensures lo { result.lo ≡ moved (floor_of p q) }
    ensures hi { result.hi ≡ moved (ceiling_of p q) }
{
    let size = long_quotients(p.unsigned_abs(), q);
    if p < 0 { opposite(size) } else { size }
}

// What a number below 0 is rounded to, where its size is rounded to these.
fn opposite(size: Side) -> Side
    requires lo { FitsSigned w32 (neg_ℤ size.lo) }
    requires hi { FitsSigned w32 (neg_ℤ size.hi) }
    ensures lo { result.lo ≡ neg_ℤ size.hi }
    ensures hi { result.hi ≡ neg_ℤ size.lo }
{
    Side {
        lo: -size.hi,
        hi: -size.lo,
    }
}

// The quotient of natural numbers, rounded down and up and at most 2^30.
fn quotients(p: u64, q: u64) -> Side
    requires { 0 < q }
    ensures lo { result.lo ≡ pos (min (p / q) (2 ^ 30)) }
    ensures hi { result.hi ≡ pos (min (div_ceil p q) (2 ^ 30)) }
{
    Side {
        lo: (p / q).min(1 << 30) as i32,
        hi: p.div_ceil(q).min(1 << 30) as i32,
    }
}

// The same in 128 bits.
fn long_quotients(p: u128, q: u128) -> Side
    requires { 0 < q }
    ensures lo { result.lo ≡ pos (min (p / q) (2 ^ 30)) }
    ensures hi { result.hi ≡ pos (min (div_ceil p q) (2 ^ 30)) }
{
    Side {
        lo: (p / q).min(1 << 30) as i32,
        hi: p.div_ceil(q).min(1 << 30) as i32,
    }
}
