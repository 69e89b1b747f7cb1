ghost use Rattle.std.specs.Prelude.{◌≡◌, ◌^◌, [], ◌∷◌};
ghost use Rattle.ray_geom.specs.Vector.{IsShort, point_of};

use crate::vec3::Vec3;
use std::marker::Model;

/// A point in 12 bytes: its coordinates are numbers of 32 bits. Contracts see it as the point.
#[derive(Clone, Copy, Debug)]
pub struct Point32 {
    pub(crate) x: i32,
    pub(crate) y: i32,
    pub(crate) z: i32,
}

impl Model for Point32 {
    ghost use Rattle.ray_geom.specs.declared.vec3.Vec3.{Vec3};
    ghost use Rattle.ray_geom.specs.Vector.{vec3};

    ghost Value = { Vec3 };

    ghost view = { λ p. vec3 p.x p.y p.z };

    ghost inverse = { λ v. record { x = v.x; y = v.y; z = v.z } };
}

impl Point32 {
    /// The point of three numbers of a record.
    pub fn from_words(words: [i32; 3]) -> Point32
        ensures { result ≡ point_of words }
    {
        let [x, y, z] = words;
        Point32 { x, y, z }
    }

    /// The point in 12 bytes, where its coordinates are at most 2^19 in absolute value.
    pub fn narrow(v: Vec3) -> Point32
        requires { IsShort (2 ^ 19) v }
        ensures { result ≡ v }
    {
        Point32 {
            x: v.x as i32,
            y: v.y as i32,
            z: v.z as i32,
        }
    }

    /// The point, with coordinates of 64 bits.
    pub fn wide(self) -> Vec3
        ensures { result ≡ self }
    {
        Vec3 {
            x: i64::from(self.x),
            y: i64::from(self.y),
            z: i64::from(self.z),
        }
    }

    /// The first coordinate.
    pub fn x(self) -> i32
        ensures { result ≡ self.x }
    {
        self.x
    }

    /// The coordinates in order.
    pub fn words(self) -> [i32; 3]
        ensures { result ≡ self.x ∷ self.y ∷ self.z ∷ [] }
    {
        [self.x, self.y, self.z]
    }
}
