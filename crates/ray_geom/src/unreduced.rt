ghost use Rattle.std.specs.Prelude.{◌≡◌};
ghost use Rattle.std.specs.declared.cmp.Ordering.TheVariants.{Equal};
ghost use Rattle.ray_geom.specs.Fraction.{IsFraction, IsSameValue};
ghost use Rattle.ray_geom.specs.Frac.{numerator, denominator};
ghost use Rattle.ray_geom.specs.Ratio.{ratio_cmp, ratio_of};

use crate::frac::Frac;
use crate::ratio::Ratio;
use std::marker::Model;

/// A fraction that isn't negative, as it is, which is put in lowest terms only where it is asked
/// for: it took no greatest common divisor. Contracts see the [`Frac`] that it comes to. (Own.)
#[derive(Debug, Drop)]
pub struct Unreduced {
    num: u64,
    den: u64,
}

impl Model for Unreduced {
    ghost use Rattle.ray_geom.specs.declared.frac.Frac.{Frac};
    ghost use Rattle.ray_geom.specs.Fraction.{IsFraction};
    ghost use Rattle.ray_geom.specs.Reduced.{lowest_of};

    ghost Value = { Frac };

    ghost view = { λ u. lowest_of u.num u.den };

    ghost invariant = { λ u. IsFraction u.num u.den };
}

impl Unreduced {
    /// The fraction `num` / `den`.
    pub fn new(num: u64, den: u64) -> Unreduced
        requires { IsFraction num den }
        ensures { IsSameValue (numerator result) (denominator result) num den }
    {
        Unreduced { num, den }
    }

    /// A fraction that is in lowest terms already.
    pub fn of(f: Frac) -> Unreduced
        ensures { result ≡ f }
    {
        let (num, den) = f.lowest();
        Unreduced { num, den }
    }

    /// The fraction in lowest terms.
    pub fn reduced(&self) -> Frac
        ensures { result ≡ self.now }
    {
        Frac::new(self.num, self.den).unwrap()
    }

    /// The ratio of this value.
    pub fn ratio(&self) -> Ratio
        ensures { ratio_cmp result (ratio_of self.now) ≡ Equal }
    {
        Ratio {
            num: self.num,
            den: self.den,
        }
    }
}
