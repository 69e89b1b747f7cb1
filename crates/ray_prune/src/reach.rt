ghost use Rattle.ray_geom.specs.Fraction.{IsSameValue};
ghost use Rattle.ray_geom.specs.Frac.{numerator, denominator};

use crate::span::Span;
use ray_geom::Ratio;

/// The distances at which a ray is inside a box, as a span whose ends aren't in lowest terms: all
/// from `entry` to `exit`. (Own.)
#[derive(Clone, Copy, Debug, PartialEq, Eq)]
pub struct Reach {
    /// The least.
    pub entry: Ratio,
    /// The greatest.
    pub exit: Ratio,
}

impl Reach {
    ghost use Rattle.ray_geom.specs.Boxes.{BoxValue};
    ghost use Rattle.ray_geom.specs.ObjectRay.{ObjectRayValue};
    ghost use Rattle.ray_prune.specs.BoxSpan.{AreFractions, IsReach, IsSpan};

    /// The same with both ends in lowest terms: of the reach of a ray and a box it is the span.
    pub fn reduced(&self) -> Span
        requires { AreFractions self.now }
        ensures entry { IsSameValue (numerator result.entry) (denominator result.entry)
            self.now.entry.num self.now.entry.den }
        ensures exit { IsSameValue (numerator result.exit) (denominator result.exit)
            self.now.exit.num self.now.exit.den }
        ensures span { (object : ObjectRayValue) (box : BoxValue) →
            IsReach object box self.now → IsSpan object box result }
    {
        Span {
            entry: self.entry.reduced(),
            exit: self.exit.reduced(),
        }
    }
}
