ghost use Rattle.std.specs.Prelude.{◌≡◌, ◌*◌, ◌^◌, ◌≤◌, ◌↔◌, IsSome, IfSome};
ghost use Rattle.ray_geom.specs.Fraction.{IsFraction, IsLowest, IsSameValue};

use crate::gcd::{gcd, quotient};
use std::cmp::Ordering;

// The greatest numerator and denominator, three times 2 to the power 61.
const LIMIT: u64 = 3 << 61;

/// A fraction that isn't negative, in lowest terms, with 0 as 0/1. Numerator and denominator are at
/// most 3 * 2^61. Two fractions of one value are identical, and the order is by value. (Own.)
#[derive(Clone, Copy, PartialEq, Eq, Debug)]
pub struct Frac {
    num: u64,
    den: u64,
    pub ghost limits: { IsFraction num den },
    pub ghost lowest: { IsLowest num den },
}

impl Frac {
    ghost use Rattle.ray_geom.specs.Frac.{numerator, denominator};
    ghost use Rattle.ray_geom.specs.declared.frac.Frac.{Frac};

    /// The fraction `num` / `den`, in lowest terms. None exactly where `den` is 0 or either number
    /// is above 3 * 2^61.
    pub fn new(num: u64, den: u64) -> Option<Frac>
        ensures some { IsSome result ↔ IsFraction num den }
        ensures value { IfSome result (λ f. IsSameValue (numerator f) (denominator f) num den) }

        // There is one fraction of this value.
        ensures only { IfSome result (λ f.
            (g : Frac) → IsSameValue (numerator g) (denominator g) num den → g ≡ f) }
    {
        if 0 < den && den <= LIMIT && num <= LIMIT {
            let divisor = gcd(num, den);
            Some(Frac {
                num: quotient(num, divisor),
                den: quotient(den, divisor),
            })
        } else {
            None
        }
    }

    /// The fraction 0, which is 0/1.
    pub fn zero() -> Frac
        ensures num { numerator result ≡ 0 }
        ensures den { denominator result ≡ 1 }
    {
        Frac { num: 0, den: 1 }
    }

    /// The fraction `parts` / 65536, as the ends of a ray's interval are given.
    pub fn part(parts: u64) -> Frac
        requires { parts ≤ 2 ^ 40 }
        ensures { IsSameValue (numerator result) (denominator result) parts 65536 }
    {
        Frac::new(parts, 65536).unwrap()
    }

    /// The numerator and the denominator in lowest terms.
    pub fn lowest(&self) -> (u64, u64)
        ensures value { result ≡ (numerator self.now, denominator self.now) }
        ensures limits { IsFraction result.0 result.1 }
        ensures lowest { IsLowest result.0 result.1 }
    {
        (self.num, self.den)
    }
}

impl Ord for Frac {
    ghost use Rattle.ray_geom.specs.Frac.{frac_cmp};
    ghost use Rattle.ray_geom.specs.FracLaws.{frac_cmp-total, frac_cmp-partial, frac_cmp-eq};

    ghost cmp = { frac_cmp };

    ghost total = { frac_cmp-total };

    ghost matches_partial_cmp = { frac_cmp-partial };

    ghost matches_eq = { frac_cmp-eq };

    fn cmp(&self, other: &Frac) -> Ordering {
        let left = self.num as u128 * other.den as u128;
        let right = other.num as u128 * self.den as u128;
        left.cmp(&right)
    }
}

impl PartialOrd for Frac {
    ghost use Rattle.std.specs.Ordering.{as_partial_cmp};
    ghost use Rattle.ray_geom.specs.Frac.{frac_cmp};
    ghost use Rattle.ray_geom.specs.FracLaws.{frac_cmp-laws};

    ghost partial_cmp = { as_partial_cmp frac_cmp };

    ghost laws = { frac_cmp-laws };

    fn partial_cmp(&self, other: &Frac) -> Option<Ordering> {
        Some(self.cmp(other))
    }
}
