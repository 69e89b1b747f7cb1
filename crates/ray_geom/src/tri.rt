ghost use Rattle.std.specs.Prelude.{◌≡◌, SomeIff};
ghost use Rattle.ray_geom.specs.Scene.{IsTri, tri_value, vertices_of};
ghost use Rattle.ray_geom.specs.Equality.{tri_eq, tri_eq-laws, tri_eq-equivalence};

use crate::vec3::{Vec3, is_short};
use std::marker::Model;

/// A triangle within the limits, by its vertices in order. (A triangle of
/// VkAccelerationStructureGeometryTrianglesDataKHR, in whole numbers; the limits are our own.)
#[derive(Clone, Copy, Debug)]
pub struct Tri {
    pub(crate) v0: Vec3,
    pub(crate) v1: Vec3,
    pub(crate) v2: Vec3,
}

impl Model for Tri {
    ghost use Rattle.ray_geom.specs.Scene.{TriValue, IsTri, tri_value};

    ghost Value = { TriValue };

    ghost view = { λ t. tri_value t.v0 t.v1 t.v2 };

    ghost invariant = { λ t. IsTri (tri_value t.v0 t.v1 t.v2) };

    ghost inverse = { λ v. record { v0 = v.v0; v1 = v.v1; v2 = v.v2 } };
}

impl Tri {
    /// The triangle with these vertices. None exactly where a coordinate is above 2^19 in absolute
    /// value.
    pub fn new(v0: Vec3, v1: Vec3, v2: Vec3) -> Option<Tri>
        ensures { let tri = tri_value v0 v1 v2 in SomeIff result (IsTri tri) tri }
    {
        if is_short(v0, 1 << 19) && is_short(v1, 1 << 19) && is_short(v2, 1 << 19) {
            Some(Tri { v0, v1, v2 })
        } else {
            None
        }
    }

    /// The triangle with these vertices, which are known to be within the limits: nothing is
    /// checked.
    pub fn of_vertices(v0: Vec3, v1: Vec3, v2: Vec3) -> Tri
        requires { IsTri (tri_value v0 v1 v2) }
        ensures { result ≡ tri_value v0 v1 v2 }
    {
        Tri { v0, v1, v2 }
    }

    /// The vertices in order, as `new` was given them.
    pub fn vertices(&self) -> [Vec3; 3]
        ensures value { result ≡ vertices_of self.now }
        ensures limits { IsTri self.now }
    {
        [self.v0, self.v1, self.v2]
    }
}

impl PartialEq for Tri {
    ghost eq = { tri_eq };

    ghost laws = { tri_eq-laws };

    fn eq(&self, other: &Tri) -> bool {
        self.v0 == other.v0 && (self.v1, self.v2) == (other.v1, other.v2)
    }
}

impl Eq for Tri {
    ghost laws = { tri_eq-equivalence };
}
