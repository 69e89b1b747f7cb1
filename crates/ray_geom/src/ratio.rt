ghost use Rattle.std.specs.Prelude.{◌≡◌, ◌<◌};
ghost use Rattle.ray_geom.specs.Fraction.{IsFraction, IsSameValue};
ghost use Rattle.ray_geom.specs.Frac.{numerator, denominator};

use crate::frac::Frac;
use std::cmp::Ordering;

/// A fraction that isn't negative, as it is, and not in lowest terms: `num` / `den`, with `den`
/// above 0. Equality and order are by value, as those of [`Frac`] are, and take two multiplications
/// and no greatest common divisor. So 1/2 == 2/4, though they are not identical. (Own.)
#[derive(Clone, Copy, Debug)]
pub struct Ratio {
    pub num: u64,
    pub den: u64,
    pub ghost positive: { 0 < den },
}

impl Ratio {
    ghost use Rattle.ray_geom.specs.Ratio.{ratio_of, ratio_at};

    /// The ratio of a fraction in lowest terms.
    pub fn of(f: Frac) -> Ratio
        ensures value { result ≡ ratio_of f }
        ensures at { result ≡ ratio_at (numerator f) (denominator f) }
    {
        let (num, den) = f.lowest();
        Ratio { num, den }
    }

    /// The ratio `parts` / 65536, as the ends of a ray's interval are given.
    pub fn part(parts: u64) -> Ratio
        ensures num { result.num ≡ parts }
        ensures den { result.den ≡ 65536 }
    {
        Ratio {
            num: parts,
            den: 65536,
        }
    }

    /// The same value in lowest terms.
    pub fn reduced(&self) -> Frac
        requires { IsFraction self.now.num self.now.den }
        ensures { IsSameValue (numerator result) (denominator result) self.now.num self.now.den }
    {
        Frac::new(self.num, self.den).unwrap()
    }
}

impl Ord for Ratio {
    ghost use Rattle.ray_geom.specs.Ratio.{ratio_cmp};
    ghost use Rattle.ray_geom.specs.RatioLaws.{ratio_cmp-total, ratio_cmp-partial, ratio_cmp-eq};

    ghost cmp = { ratio_cmp };

    ghost total = { ratio_cmp-total };

    ghost matches_partial_cmp = { ratio_cmp-partial };

    ghost matches_eq = { ratio_cmp-eq };

    fn cmp(&self, other: &Ratio) -> Ordering {
        let left = self.num as u128 * other.den as u128;
        let right = other.num as u128 * self.den as u128;
        left.cmp(&right)
    }
}

impl PartialOrd for Ratio {
    ghost use Rattle.std.specs.Ordering.{as_partial_cmp};
    ghost use Rattle.ray_geom.specs.Ratio.{ratio_cmp};
    ghost use Rattle.ray_geom.specs.RatioLaws.{ratio_cmp-laws};

    ghost partial_cmp = { as_partial_cmp ratio_cmp };

    ghost laws = { ratio_cmp-laws };

    fn partial_cmp(&self, other: &Ratio) -> Option<Ordering> {
        Some(self.cmp(other))
    }
}

impl PartialEq for Ratio {
    ghost use Rattle.ray_geom.specs.Ratio.{ratio_eq};
    ghost use Rattle.ray_geom.specs.RatioLaws.{ratio_eq-laws};

    ghost eq = { ratio_eq };

    ghost laws = { ratio_eq-laws };

    fn eq(&self, other: &Ratio) -> bool {
        self.cmp(other).is_eq()
    }
}

impl Eq for Ratio {
    ghost use Rattle.ray_geom.specs.RatioLaws.{ratio_eq-equivalence};

    ghost laws = { ratio_eq-equivalence };
}
