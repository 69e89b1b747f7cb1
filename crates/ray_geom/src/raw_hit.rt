ghost use Rattle.std.specs.Prelude.{◌≡◌};
ghost use Rattle.ray_geom.specs.HitValue.{reduced_hit};

use crate::tri_hit::TriHit;
use crate::unreduced::Unreduced;

/// What a ray's hit of a triangle tells, its fractions not in lowest terms yet. (Own.)
#[derive(Debug, Drop)]
pub struct RawHit {
    /// The distance.
    pub t: Unreduced,
    /// The weight of the triangle's second vertex.
    pub u: Unreduced,
    /// The weight of the triangle's third vertex.
    pub v: Unreduced,
    /// Whether the triangle's determinant in the direction is negative.
    pub den_negative: bool,
}

impl RawHit {
    /// The same in lowest terms.
    pub fn reduced(&self) -> TriHit
        ensures { result ≡ reduced_hit self.now }
    {
        TriHit {
            t: self.t.reduced(),
            u: self.u.reduced(),
            v: self.v.reduced(),
            den_negative: self.den_negative,
        }
    }
}
