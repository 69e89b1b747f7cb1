//! A box in two halves of 63 bits.
ghost use Rattle.std.specs.Prelude.{◌≡◌, ◌<◌, ◌^◌, ◌-ℤ◌, pos};
ghost use Rattle.ray_geom.specs.Vector.{IsShort, IsWithin};
ghost use Rattle.ray_climb.specs.Halves.{raised, packed, x_of, y_of, z_of};
ghost use Rattle.ray_climb.specs.Halves.{half_of, corner_of, lesser_half, greater_half};

use ray_geom::Vec3;

// No coordinate is further from 0.
const FURTHEST: i64 = 1 << 19;

// As many numbers as 21 bits have.
const NUMBERS: u64 = 1 << 21;

// A coordinate, counted from the least one.
fn raise(c: i64) -> u64
    requires { IsWithin (2 ^ 19) c }
    ensures value { result ≡ raised c }
    ensures small { result < 2 ^ 21 }
{
    (c + FURTHEST) as u64
}

// And again from 0.
fn lower(n: u64) -> i64
    requires { n < 2 ^ 22 }
    ensures { result ≡ pos n -ℤ pos (2 ^ 19) }
{
    n as i64 - FURTHEST
}

// Three numbers in one.
fn pack(x: u64, y: u64, z: u64) -> u64
    requires { (x < 2 ^ 22) × (y < 2 ^ 21) × (z < 2 ^ 21) }
    ensures { result ≡ packed x y z }
{
    x * (NUMBERS * NUMBERS) + y * NUMBERS + z
}

// The first of three numbers in one.
fn first(half: u64) -> u64
    ensures value { result ≡ x_of half }
    ensures small { result < 2 ^ 22 }
{
    half / (NUMBERS * NUMBERS)
}

// The second.
fn second(half: u64) -> u64
    ensures value { result ≡ y_of half }
    ensures small { result < 2 ^ 21 }
{
    half / NUMBERS % NUMBERS
}

// The third.
fn third(half: u64) -> u64
    ensures value { result ≡ z_of half }
    ensures small { result < 2 ^ 21 }
{
    half % NUMBERS
}

// A corner of a box in one number.
#[tactic(auto, unfolding(crate::specs::Halves::half_of))]
pub(crate) fn half(v: Vec3) -> u64
    requires { IsShort (2 ^ 19) v }
    ensures { result ≡ half_of v }
{
    pack(raise(v.x), raise(v.y), raise(v.z))
}

// The corner of a half.
pub(crate) fn corner(half: u64) -> Vec3
    ensures { result ≡ corner_of half }
{
    Vec3 {
        x: lower(first(half)),
        y: lower(second(half)),
        z: lower(third(half)),
    }
}

// Coordinate by coordinate the lesser of two halves.
#[tactic(auto, unfolding(crate::specs::Halves::lesser_half))]
pub(crate) fn lesser(a: u64, b: u64) -> u64
    ensures { result ≡ lesser_half a b }
{
    pack(
        first(a).min(first(b)),
        second(a).min(second(b)),
        third(a).min(third(b)),
    )
}

// And the greater.
#[tactic(auto, unfolding(crate::specs::Halves::greater_half))]
pub(crate) fn greater(a: u64, b: u64) -> u64
    ensures { result ≡ greater_half a b }
{
    pack(
        first(a).max(first(b)),
        second(a).max(second(b)),
        third(a).max(third(b)),
    )
}
