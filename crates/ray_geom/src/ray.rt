ghost use Rattle.std.specs.Prelude.{◌≡◌, SomeIff};
ghost use Rattle.ray_geom.specs.Fraction.{IsSameValue};
ghost use Rattle.ray_geom.specs.Frac.{numerator, denominator};
ghost use Rattle.ray_geom.specs.Scene.{IsRay, ray_value};

use crate::frac::Frac;
use crate::vec3::{Vec3, is_short};
use std::marker::Model;

/// A ray within the limits: an origin, a direction, and the interval of distances in which it meets
/// things. At the distance t it is at origin + t * direction. (The operands of
/// OpRayQueryInitializeKHR, in whole numbers; the limits are our own.)
#[derive(Clone, Copy, Debug)]
pub struct Ray {
    pub(crate) origin: Vec3,
    pub(crate) dir: Vec3,
    pub(crate) tmin: u64,
    pub(crate) tmax: u64,
}

impl Model for Ray {
    ghost use Rattle.ray_geom.specs.Scene.{RayValue, IsRay, ray_value};

    ghost Value = { RayValue };

    ghost view = { λ r. ray_value r.origin r.dir r.tmin r.tmax };

    ghost invariant = { λ r. IsRay (ray_value r.origin r.dir r.tmin r.tmax) };

    ghost inverse = { λ v. record { origin = v.origin; dir = v.dir; tmin = v.tmin; tmax = v.tmax } };
}

impl Ray {
    /// The ray with these parts; `tmin` and `tmax` are in 1/65536. None exactly where a limit is
    /// broken: each origin coordinate is at most 2^19 and each direction entry at most 2^20 in
    /// absolute value, the direction isn't all zero, and tmin <= tmax <= 2^40.
    pub fn new(origin: Vec3, dir: Vec3, tmin: u64, tmax: u64) -> Option<Ray>
        ensures { let ray = ray_value origin dir tmin tmax in
            SomeIff result (IsRay ray) ray }
    {
        let is_zero = dir.x == 0 && dir.y == 0 && dir.z == 0;
        if is_short(origin, 1 << 19)
            && is_short(dir, 1 << 20)
            && !is_zero
            && tmin <= tmax
            && tmax <= 1 << 40
        {
            Some(Ray {
                origin,
                dir,
                tmin,
                tmax,
            })
        } else {
            None
        }
    }

    /// Where it begins.
    pub fn origin(&self) -> Vec3
        ensures value { result ≡ self.now.origin }
        ensures limits { IsRay self.now }
    {
        self.origin
    }

    /// Its direction.
    pub fn dir(&self) -> Vec3
        ensures value { result ≡ self.now.dir }
        ensures limits { IsRay self.now }
    {
        self.dir
    }

    /// The least distance, in 1/65536.
    pub fn tmin(&self) -> u64
        ensures value { result ≡ self.now.tmin }
        ensures limits { IsRay self.now }
    {
        self.tmin
    }

    /// The greatest distance, in 1/65536.
    pub fn tmax(&self) -> u64
        ensures value { result ≡ self.now.tmax }
        ensures limits { IsRay self.now }
    {
        self.tmax
    }

    /// The least distance as a fraction: tmin / 65536.
    pub fn least(&self) -> Frac
        ensures { IsSameValue (numerator result) (denominator result) self.now.tmin 65536 }
    {
        Frac::part(self.tmin)
    }

    /// The greatest distance as a fraction: tmax / 65536.
    pub fn greatest(&self) -> Frac
        ensures { IsSameValue (numerator result) (denominator result) self.now.tmax 65536 }
    {
        Frac::part(self.tmax)
    }
}

impl PartialEq for Ray {
    ghost use Rattle.ray_geom.specs.Equality.{ray_eq, ray_eq-laws};

    ghost eq = { ray_eq };

    ghost laws = { ray_eq-laws };

    fn eq(&self, other: &Ray) -> bool {
        self.origin == other.origin
            && self.dir == other.dir
            && self.tmin == other.tmin
            && self.tmax == other.tmax
    }
}

impl Eq for Ray {
    ghost use Rattle.ray_geom.specs.Equality.{ray_eq-equivalence};

    ghost laws = { ray_eq-equivalence };
}
