ghost use Rattle.std.specs.Prelude.{◌≡◌, IfSome, Some, is_some};
ghost use Rattle.ray_geom.specs.Scene.{IsTri, tri_value, vertices_of};
ghost use Rattle.ray_bytes.specs.InactiveMark.{is_inactive_mark};
ghost use Rattle.ray_primitives.specs.Primitives.{active_triangle, inactive_triangle};
ghost use Rattle.ray_primitives.specs.Primitives.{box_of_triangle, IsTriangle};
ghost use Rattle.ray_primitives.specs.StoredPrimitives.{written_tri};

use crate::index_values::IndexValues;
use ray_bytes::{INACTIVE_MARK, is_inactive_mark};
use ray_geom::{Box3, Point32, Tri, Vec3};
use std::marker::Model;

/// A triangle of a bottom structure in 48 bytes: its vertices after the geometry's transform and
/// its index values. An inactive one has the mark as x of its first vertex, and no vertices as
/// contracts see it.
#[derive(Debug, Drop)]
pub struct KeptTriangle {
    a: Point32,
    b: Point32,
    c: Point32,
    indices: IndexValues,
}

impl Model for KeptTriangle {
    ghost use Rattle.ray_primitives.specs.Primitives.{TriangleValue, kept_triangle, IsTriangle};

    ghost Value = { TriangleValue };

    ghost view = { λ t. kept_triangle t.a t.b t.c t.indices };

    ghost invariant = { λ t. IsTriangle (kept_triangle t.a t.b t.c t.indices) };
}

impl KeptTriangle {
    /// The active triangle with these vertices.
    #[tactic(auto, unfolding(crate::specs::Primitives::kept_triangle))]
    pub fn active(a: Vec3, b: Vec3, c: Vec3, indices: IndexValues) -> KeptTriangle
        requires { IsTri (tri_value a b c) }
        ensures { result ≡ active_triangle a b c indices }
    {
        KeptTriangle {
            a: Point32::narrow(a),
            b: Point32::narrow(b),
            c: Point32::narrow(c),
            indices,
        }
    }

    /// The inactive triangle with these index values.
    #[tactic(auto, unfolding(crate::specs::Primitives::kept_triangle))]
    pub fn inactive(indices: IndexValues) -> KeptTriangle
        ensures { result ≡ inactive_triangle indices }
    {
        KeptTriangle {
            a: Point32::from_words([INACTIVE_MARK, 0, 0]),
            b: Point32::from_words([0, 0, 0]),
            c: Point32::from_words([0, 0, 0]),
            indices,
        }
    }

    /// Whether it is active.
    #[tactic(auto, unfolding(crate::specs::Primitives::kept_triangle))]
    pub fn is_active(&self) -> bool
        ensures value { result ≡ is_some self.now.tri }
        ensures limits { IsTriangle self.now }
    {
        !is_inactive_mark(self.a.x())
    }

    /// Its vertices. None exactly where it is inactive.
    #[tactic(auto, unfolding(crate::specs::Primitives::kept_triangle))]
    pub fn tri(&self) -> Option<Tri>
        ensures value { result ≡ self.now.tri }
        ensures limits { IfSome result IsTri }
    {
        if is_inactive_mark(self.a.x()) {
            None
        } else {
            let (a, b, c) = (self.a.wide(), self.b.wide(), self.c.wide());
            Some(Tri::of_vertices(a, b, c))
        }
    }

    /// Its index values.
    #[tactic(auto, unfolding(crate::specs::Primitives::kept_triangle))]
    pub fn indices(&self) -> IndexValues
        ensures { result ≡ self.now.indices }
    {
        self.indices
    }

    /// Its least box. None exactly where it is inactive.
    pub fn bounds(&self) -> Option<Box3>
        ensures { result ≡ box_of_triangle self.now }
    {
        let tri = self.tri()?;
        Some(tri.bounds())
    }

    // Its points as they are written.
    #[tactic(auto, unfolding(crate::specs::Primitives::kept_triangle))]
    pub(crate) fn written(&self) -> [Point32; 3]
        ensures { result ≡ vertices_of (written_tri self.now.tri) }
    {
        if is_inactive_mark(self.a.x()) {
            let zero = Point32::from_words([0, 0, 0]);
            [Point32::from_words([INACTIVE_MARK, 0, 0]), zero, zero]
        } else {
            [self.a, self.b, self.c]
        }
    }

    /// The same triangle.
    #[tactic(auto, unfolding(crate::specs::Primitives::kept_triangle))]
    pub fn copy(&self) -> KeptTriangle
        ensures { result ≡ self.now }
    {
        KeptTriangle {
            a: self.a,
            b: self.b,
            c: self.c,
            indices: self.indices,
        }
    }
}
