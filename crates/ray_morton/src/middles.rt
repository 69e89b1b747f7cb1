//! The keys of boxes.
ghost use Rattle.std.specs.Prelude.{◌≡◌, ◌<◌, ◌^◌};
ghost use Rattle.ray_geom.specs.Vector.{IsWithin};
ghost use Rattle.ray_morton.specs.Keys.{middle_of, key_of};
ghost use Rattle.ray_morton.specs.Entries.{spread};

use ray_geom::Box3;

// No coordinate is further from 0.
const FURTHEST: i64 = 1 << 19;

// The bits of the numbers below 32, each at three times its place.
const SPREAD: [u64; 32] = [
    0, 1, 8, 9, 64, 65, 72, 73, 512, 513, 520, 521, 576, 577, 584, 585, 4096, 4097, 4104, 4105,
    4160, 4161, 4168, 4169, 4608, 4609, 4616, 4617, 4672, 4673, 4680, 4681,
];

// Where the middle of a box is on an axis.
fn middle(lo: i64, hi: i64) -> u64
    requires lo { IsWithin (2 ^ 19) lo }
    requires hi { IsWithin (2 ^ 19) hi }
    ensures value { result ≡ middle_of lo hi }
    ensures small { result < 2 ^ 20 }
{
    (lo + hi + 2 * FURTHEST) as u64 / 4
}

// The bits of a number below 32, each at three times its place.
fn spread_five(x: u64) -> u64
    requires { x < 2 ^ 5 }
    ensures value { result ≡ spread 5 x }
    ensures small { result < 2 ^ 15 }
{
    SPREAD[x as usize]
}

// The bits of a number of 10 bits.
fn spread_ten(x: u64) -> u64
    requires { x < 2 ^ 10 }
    ensures value { result ≡ spread 10 x }
    ensures small { result < 2 ^ 30 }
{
    spread_five(x / 32) * (1 << 15) + spread_five(x % 32)
}

// The bits of a number of 20 bits.
fn spread_all(x: u64) -> u64
    requires { x < 2 ^ 20 }
    ensures value { result ≡ spread 20 x }
    ensures small { result < 2 ^ 58 }
{
    spread_ten(x / 1024) * (1 << 30) + spread_ten(x % 1024)
}

// The key of a box.
pub(crate) fn key(b: &Box3) -> u64
    ensures value { result ≡ key_of b.now }
    ensures small { result < 2 ^ 60 }
{
    let (lo, hi) = (b.lo(), b.hi());
    let x = spread_all(middle(lo.x, hi.x));
    let y = spread_all(middle(lo.y, hi.y));
    let z = spread_all(middle(lo.z, hi.z));
    4 * x + (2 * y + z)
}
