ghost use Rattle.std.specs.Prelude.{◌≡◌};
ghost use Rattle.ray_geom.specs.ObjectRay.{IsObjectRay, object_of, LeadsBack};
ghost use Rattle.ray_geom.specs.Transform.{identity_value};

use crate::adjugate::Adjugate;
use crate::matrix::Matrix;
use crate::ray::Ray;
use crate::vec3::{Vec3, minus};
use std::marker::Model;

/// A ray in the space of an instance's object: at the distance t it is at (origin + t * dir) / det
/// there. (Own; for the instance transforms of "Ray Traversal" in the Vulkan specification.)
#[derive(Clone, Copy, Debug)]
pub struct ObjectRay {
    pub(crate) origin: Vec3,
    pub(crate) dir: Vec3,
    pub(crate) det: i64,
    pub(crate) tmin: u64,
    pub(crate) tmax: u64,
}

impl Model for ObjectRay {
    ghost use Rattle.ray_geom.specs.ObjectRay.{ObjectRayValue, IsObjectRay, object_value};

    ghost Value = { ObjectRayValue };

    ghost view = { λ r. object_value r.origin r.dir r.det r.tmin r.tmax };

    ghost invariant = { λ r. IsObjectRay (object_value r.origin r.dir r.det r.tmin r.tmax) };

    ghost inverse = { λ v. record {
      origin = v.origin;
      dir = v.dir;
      det = v.det;
      tmin = v.tmin;
      tmax = v.tmax;
    } };
}

impl ObjectRay {
    /// Where it begins, times `det`.
    pub fn origin(&self) -> Vec3
        ensures value { result ≡ self.now.origin }
        ensures limits { IsObjectRay self.now }
    {
        self.origin
    }

    /// Its direction, times `det`.
    pub fn dir(&self) -> Vec3
        ensures value { result ≡ self.now.dir }
        ensures limits { IsObjectRay self.now }
    {
        self.dir
    }

    /// The determinant of the instance's matrix.
    pub fn det(&self) -> i64
        ensures value { result ≡ self.now.det }
        ensures limits { IsObjectRay self.now }
    {
        self.det
    }

    /// The least distance, in 1/65536.
    pub fn tmin(&self) -> u64
        ensures value { result ≡ self.now.tmin }
        ensures limits { IsObjectRay self.now }
    {
        self.tmin
    }

    /// The greatest distance, in 1/65536.
    pub fn tmax(&self) -> u64
        ensures value { result ≡ self.now.tmax }
        ensures limits { IsObjectRay self.now }
    {
        self.tmax
    }
}

/// The ray in the space of an object that `m` maps to the world: adj(M) (o - T), adj(M) d, the
/// determinant of M, and the ray's interval, all exact. M takes it back to the ray, det times as
/// long. (Own; for the instance transforms of "Ray Traversal" in the Vulkan specification.)
#[inline(always)]
pub fn object_ray(ray: &Ray, m: &Matrix) -> ObjectRay
    ensures value { result ≡ object_of ray.now m.now }
    ensures back { LeadsBack ray.now m.now result }
{
    if m.is_identity() {
        in_place(ray)
    } else {
        moved(ray, m)
    }
}

// The ray in the space of an object that stands where it is.
fn in_place(ray: &Ray) -> ObjectRay
    ensures { result ≡ object_of ray.now identity_value }
{
    ObjectRay {
        origin: ray.origin,
        dir: ray.dir,
        det: 1,
        tmin: ray.tmin,
        tmax: ray.tmax,
    }
}

// The ray in the space of another object.
#[inline(always)]
fn moved(ray: &Ray, m: &Matrix) -> ObjectRay
    ensures { result ≡ object_of ray.now m.now }
{
    let adjugate = Adjugate::of(m);
    ObjectRay {
        origin: adjugate.times(minus(ray.origin, m.t)),
        dir: adjugate.times(ray.dir),
        det: m.det(),
        tmin: ray.tmin,
        tmax: ray.tmax,
    }
}
