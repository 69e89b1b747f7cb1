//! Eight numbers at once: planes from -2^19 on, and keys with 2^31 more.
ghost use Rattle.std.specs.Prelude.{◌≡◌, length, map};
ghost use Rattle.std.specs.Int.{w32, cast_unsigned};
ghost use Rattle.ray_slabs.specs.Rows.{keys_over, keys_under, high_row, planes_row, lesser_row};
ghost use Rattle.ray_slabs.specs.Rows.{greater_row, overlap_row, lifted};

use std::simd::prelude::*;

// A key with 2^31 more.
pub(crate) fn lifted(key: i32) -> u32
    ensures { result ≡ lifted key }
{
    (i64::from(key) + (1 << 31)) as u32
}

// Eight planes, each as how far it is from -2^19.
#[inline(always)]
pub(crate) fn planes_row(row: &[i32; 8]) -> u32x8
    ensures planes { result ≡ planes_row row.now }
    ensures long { length row.now ≡ 8 }
{
    over(1 << 19, words_row(row))
}

// Eight numbers by their bits.
#[inline(always)]
fn words_row(row: &[i32; 8]) -> u32x8
    ensures words { result ≡ map (cast_unsigned w32) row.now }
    ensures long { length row.now ≡ 8 }
{
    let [a, b, c, d, e, f, g, h] = *row;
    u32x8::from_array([
        a.cast_unsigned(),
        b.cast_unsigned(),
        c.cast_unsigned(),
        d.cast_unsigned(),
        e.cast_unsigned(),
        f.cast_unsigned(),
        g.cast_unsigned(),
        h.cast_unsigned(),
    ])
}

// How far each plane is from the one at -2^19, in keys.
#[inline(always)]
pub(crate) fn high_row(planes: u32x8, factor: u32) -> u32x8
    requires { length planes ≡ 8 }
    ensures { result ≡ high_row planes factor }
{
    let products = planes.cast::<u64>() * u64x8::splat(u64::from(factor));
    (products / u64x8::splat(1 << 22) % u64x8::splat(1 << 32)).cast::<u32>()
}

// A number more.
#[inline(always)]
pub(crate) fn over(start: u32, row: u32x8) -> u32x8
    ensures { result ≡ keys_over start row }
{
    u32x8::splat(start) + row
}

// A number less.
#[inline(always)]
pub(crate) fn under(start: u32, row: u32x8) -> u32x8
    ensures { result ≡ keys_under start row }
{
    u32x8::splat(start) - row
}

// The greater ones of two rows.
#[inline(always)]
pub(crate) fn greater_row(a: u32x8, b: u32x8) -> u32x8
    ensures { result ≡ greater_row a b }
{
    a.simd_max(b)
}

// The lesser ones.
#[inline(always)]
pub(crate) fn lesser_row(a: u32x8, b: u32x8) -> u32x8
    ensures { result ≡ lesser_row a b }
{
    a.simd_min(b)
}

// 0 where planes overlap what lies from `from` to `to`, else a number.
#[inline(always)]
pub(crate) fn overlap_row(lo: u32x8, hi: u32x8, from: u32, to: u32, other: u32) -> u32x8
    requires lo { length lo ≡ 8 }
    requires hi { length hi ≡ 8 }
    ensures { result ≡ overlap_row lo hi from to other }
{
    let lo = lo * u32x8::splat(1024) + u32x8::splat(1 << 31);
    let hi = hi * u32x8::splat(1024) + u32x8::splat(1 << 31);
    let met = lo.simd_le(u32x8::splat(to)) & u32x8::splat(from).simd_le(hi);
    met.select(u32x8::splat(0), u32x8::splat(other))
}
