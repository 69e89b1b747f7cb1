ghost use Rattle.std.specs.Prelude.{◌≡◌, ◌≢◌, ◌*◌, ◌^◌, ◌+ℤ◌, ◌↔◌, pos, IsTrue, SomeIff};
ghost use Rattle.ray_geom.specs.declared.vec3.Vec3.{Vec3};
ghost use Rattle.ray_geom.specs.Vector.{IsWithin, IsShort, cross_of, dot_of};
ghost use Rattle.ray_geom.specs.Transform.{IsMatrix, matrix_of, matrix_value, rows_of, table_of, identity_value, det_of, image_of};
ghost use Rattle.ray_geom.specs.Equality.{matrix_eq, matrix_eq-laws, matrix_eq-equivalence};

use crate::vec3::{Vec3, cross, dot, is_short};
use std::marker::Model;

/// A transform within the limits: a matrix M with a translation T, which maps v to M v + T.
/// (VkTransformMatrixKHR, in whole numbers; the limits are our own.)
#[derive(Clone, Copy, Debug)]
pub struct Matrix {
    // The rows of M.
    pub(crate) a: Vec3,
    pub(crate) b: Vec3,
    pub(crate) c: Vec3,
    // T.
    pub(crate) t: Vec3,
    // Whether it leaves each point where it is, which is asked for each triangle that a ray tests.
    stays: bool,
}

impl Model for Matrix {
    ghost use Rattle.ray_geom.specs.Equality.{matrix_eq};
    ghost use Rattle.ray_geom.specs.Transform.{MatrixValue, matrix_value, identity_value};
    ghost use Rattle.ray_geom.specs.Told.{IsTold};

    ghost Value = { MatrixValue };

    ghost view = { λ m. matrix_value m.a m.b m.c m.t };

    ghost invariant = { λ m. IsTold (matrix_value m.a m.b m.c m.t) m.stays };

    ghost inverse = { λ v. record {
      a = v.a;
      b = v.b;
      c = v.c;
      t = v.t;
      stays = matrix_eq v identity_value;
    } };
}

impl Matrix {
    /// The transform whose M has the first three numbers of each row, and whose T is the last
    /// column. None exactly where a limit is broken: each number of M is at most 2^12 and each of T
    /// at most 2^20 in absolute value, and the determinant of M isn't 0.
    pub fn new(rows: [[i64; 4]; 3]) -> Option<Matrix>
        ensures { let m = matrix_of rows in SomeIff result (IsMatrix m) m }
    {
        let [[ax, ay, az, tx], [bx, by, bz, ty], [cx, cy, cz, tz]] = rows;
        let a = Vec3 {
            x: ax,
            y: ay,
            z: az,
        };
        let b = Vec3 {
            x: bx,
            y: by,
            z: bz,
        };
        let c = Vec3 {
            x: cx,
            y: cy,
            z: cz,
        };
        let t = Vec3 {
            x: tx,
            y: ty,
            z: tz,
        };
        from_parts(a, b, c, t)
    }

    /// The transform of the twelve numbers of a record, row by row, as `new` makes it.
    pub fn from_words(words: [i32; 12]) -> Option<Matrix>
        ensures { let m = matrix_of (table_of words) in SomeIff result (IsMatrix m) m }
    {
        let [ax, ay, az, tx, bx, by, bz, ty, cx, cy, cz, tz] = words;
        from_parts(
            Vec3::from_words([ax, ay, az]),
            Vec3::from_words([bx, by, bz]),
            Vec3::from_words([cx, cy, cz]),
            Vec3::from_words([tx, ty, tz]),
        )
    }

    /// The transform of the twelve numbers of a record, which are known to be within the limits:
    /// nothing is checked.
    pub fn of_words(words: [i32; 12]) -> Matrix
        requires { IsMatrix (matrix_of (table_of words)) }
        ensures { result ≡ matrix_of (table_of words) }
    {
        let [ax, ay, az, tx, bx, by, bz, ty, cx, cy, cz, tz] = words;
        of_parts(
            Vec3::from_words([ax, ay, az]),
            Vec3::from_words([bx, by, bz]),
            Vec3::from_words([cx, cy, cz]),
            Vec3::from_words([tx, ty, tz]),
        )
    }

    /// The transform that leaves each point where it is.
    pub fn identity() -> Matrix
        ensures { result ≡ identity_value }
    {
        Matrix {
            a: Vec3 { x: 1, y: 0, z: 0 },
            b: Vec3 { x: 0, y: 1, z: 0 },
            c: Vec3 { x: 0, y: 0, z: 1 },
            t: Vec3 { x: 0, y: 0, z: 0 },
            stays: true,
        }
    }

    /// The table that `new` was given.
    pub fn rows(&self) -> [[i64; 4]; 3]
        ensures table { result ≡ rows_of self.now }
        ensures matrix { matrix_of result ≡ self.now }
        ensures limits { IsMatrix self.now }
    {
        let (a, b, c, t) = (self.a, self.b, self.c, self.t);
        [
            [a.x, a.y, a.z, t.x],
            [b.x, b.y, b.z, t.y],
            [c.x, c.y, c.z, t.z],
        ]
    }

    /// The determinant of M. It isn't 0, and is at most 6 * 2^36 in absolute value.
    pub fn det(&self) -> i64
        ensures value { result ≡ det_of self.now }
        ensures short { IsWithin (6 * 2 ^ 36) result }
        ensures not_zero { result ≢ pos 0 }
    {
        if self.is_identity() {
            1
        } else {
            determinant(self.a, self.b, self.c)
        }
    }

    /// M v + T. None exactly where a coordinate of it is above 2^19 in absolute value.
    pub fn apply(&self, v: Vec3) -> Option<Vec3>
        requires { IsShort (2 ^ 19) v }
        ensures { let image = image_of self.now v in SomeIff result (IsShort (2 ^ 19) image) image }
    {
        let image = self.image(v);
        if is_short(image, 1 << 19) {
            Some(image)
        } else {
            None
        }
    }

    /// M v + T, which may be beyond the limits of points.
    pub fn image(&self, v: Vec3) -> Vec3
        requires { IsShort (2 ^ 19) v }
        ensures { result ≡ image_of self.now v }
    {
        Vec3 {
            x: place(self.a, v, self.t.x),
            y: place(self.b, v, self.t.y),
            z: place(self.c, v, self.t.z),
        }
    }

    /// Whether it leaves each point where it is.
    pub fn is_identity(&self) -> bool
        ensures value { IsTrue result ↔ self.now ≡ identity_value }
        ensures stays { IsTrue result → (v : Vec3) → image_of self.now v ≡ v }
    {
        self.stays
    }
}

impl PartialEq for Matrix {
    ghost eq = { matrix_eq };

    ghost laws = { matrix_eq-laws };

    fn eq(&self, other: &Matrix) -> bool {
        (self.a, self.b, self.c, self.t) == (other.a, other.b, other.c, other.t)
    }
}

impl Eq for Matrix {
    ghost laws = { matrix_eq-equivalence };
}

// The transform with these rows of M and this T, within the limits.
fn from_parts(a: Vec3, b: Vec3, c: Vec3, t: Vec3) -> Option<Matrix>
    ensures { let m = matrix_value a b c t in SomeIff result (IsMatrix m) m }
{
    if is_short(a, 1 << 12)
        && is_short(b, 1 << 12)
        && is_short(c, 1 << 12)
        && is_short(t, 1 << 20)
        && determinant(a, b, c) != 0
    {
        Some(of_parts(a, b, c, t))
    } else {
        None
    }
}

// The same, which is known to be within the limits.
fn of_parts(a: Vec3, b: Vec3, c: Vec3, t: Vec3) -> Matrix
    requires { IsMatrix (matrix_value a b c t) }
    ensures { result ≡ matrix_value a b c t }
{
    Matrix {
        a,
        b,
        c,
        t,
        stays: do_stay(a, b, c, t),
    }
}

// Whether the transform with these rows of M and this T is the identity.
fn do_stay(a: Vec3, b: Vec3, c: Vec3, t: Vec3) -> bool
    ensures { result ≡ matrix_eq (matrix_value a b c t) identity_value }
{
    let x = Vec3 { x: 1, y: 0, z: 0 };
    let y = Vec3 { x: 0, y: 1, z: 0 };
    let z = Vec3 { x: 0, y: 0, z: 1 };
    let origin = Vec3 { x: 0, y: 0, z: 0 };
    (a, b, c, t) == (x, y, z, origin)
}

// The determinant of the matrix with these rows.
fn determinant(a: Vec3, b: Vec3, c: Vec3) -> i64
    requires a_short { IsShort (2 ^ 12) a }
    requires b_short { IsShort (2 ^ 12) b }
    requires c_short { IsShort (2 ^ 12) c }
    ensures value { result ≡ dot_of a (cross_of b c) }
    ensures short { IsWithin (6 * 2 ^ 36) result }
{
    dot(a, cross(b, c))
}

// One coordinate of an image: a row of M times v, and t.
fn place(row: Vec3, v: Vec3, t: i64) -> i64
    requires row_short { IsShort (2 ^ 12) row }
    requires v_short { IsShort (2 ^ 19) v }
    requires t_short { IsWithin (2 ^ 20) t }
    ensures { result ≡ dot_of row v +ℤ t }
{
    dot(row, v) + t
}
