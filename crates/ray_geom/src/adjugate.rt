ghost use Rattle.std.specs.Prelude.{◌≡◌, ◌+◌, ◌^◌};
ghost use Rattle.ray_geom.specs.Vector.{IsShort};
ghost use Rattle.ray_geom.specs.Transform.{times_of, adjugate_of};

use crate::matrix::Matrix;
use crate::vec3::{Vec3, cross, dot};
use std::marker::Model;

// The adjugate of a transform's matrix, by its rows.
#[derive(Clone, Copy)]
pub(crate) struct Adjugate {
    a: Vec3,
    b: Vec3,
    c: Vec3,
}

impl Model for Adjugate {
    ghost use Rattle.ray_geom.specs.Transform.{Rows, IsAdjugate};

    ghost Value = { Rows };

    ghost view = { λ s. record { a = s.a; b = s.b; c = s.c } };

    ghost invariant = { λ s. IsAdjugate record { a = s.a; b = s.b; c = s.c } };

    ghost inverse = { λ v. record { a = v.a; b = v.b; c = v.c } };
}

impl Adjugate {
    // The adjugate of M.
    pub(crate) fn of(m: &Matrix) -> Adjugate
        ensures { result ≡ adjugate_of m.now }
    {
        let p = cross(m.b, m.c);
        let q = cross(m.c, m.a);
        let r = cross(m.a, m.b);
        Adjugate {
            a: Vec3 {
                x: p.x,
                y: q.x,
                z: r.x,
            },
            b: Vec3 {
                x: p.y,
                y: q.y,
                z: r.y,
            },
            c: Vec3 {
                x: p.z,
                y: q.z,
                z: r.z,
            },
        }
    }

    // The adjugate times v.
    pub(crate) fn times(&self, v: Vec3) -> Vec3
        requires { IsShort (2 ^ 19 + 2 ^ 20) v }
        ensures { result ≡ times_of self.now v }
    {
        Vec3 {
            x: dot(self.a, v),
            y: dot(self.b, v),
            z: dot(self.c, v),
        }
    }
}
