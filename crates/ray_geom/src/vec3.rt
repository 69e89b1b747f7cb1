ghost use Rattle.std.specs.Prelude.{◌≡◌, ◌+◌, ◌*◌, ◌^◌, ◌↔◌, IsTrue};
ghost use Rattle.ray_geom.specs.Vector.{IsWithin, IsShort, point_of, minus_of, minor_of, cross_of, dot_of};
ghost use Rattle.ray_geom.specs.Fits.{DotFits, MinusFits};

/// A point, or a direction, with whole coordinates. The derived order is the lexicographic one: by
/// x, then by y, then by z. (Own.)
#[derive(Clone, Copy, Debug, PartialEq, Eq, PartialOrd, Ord)]
pub struct Vec3 {
    pub x: i64,
    pub y: i64,
    pub z: i64,
}

impl Vec3 {
    /// The point of three numbers of a record.
    pub fn from_words(words: [i32; 3]) -> Vec3
        ensures { result ≡ point_of words }
    {
        let [x, y, z] = words;
        Vec3 {
            x: i64::from(x),
            y: i64::from(y),
            z: i64::from(z),
        }
    }
}

/// Whether each coordinate is at most the limit in absolute value.
pub fn is_short(v: Vec3, limit: u64) -> bool
    ensures { IsTrue result ↔ IsShort limit v }
{
    v.x.unsigned_abs() <= limit && v.y.unsigned_abs() <= limit && v.z.unsigned_abs() <= limit
}

// The way from b to a.
pub(crate) fn minus(a: Vec3, b: Vec3) -> Vec3
    requires { MinusFits a b }
    ensures value { result ≡ minus_of a b }
    ensures short { IsShort (2 ^ 19) a → IsShort (2 ^ 19) b → IsShort (2 ^ 20) result }
    ensures seen { IsShort (2 ^ 19) a → IsShort (2 ^ 20) b → IsShort (2 ^ 19 + 2 ^ 20) result }
{
    Vec3 {
        x: a.x - b.x,
        y: a.y - b.y,
        z: a.z - b.z,
    }
}

// The determinant of two rows, (a, b) and (c, d).
fn minor(a: i64, b: i64, c: i64, d: i64) -> i64
    requires a_short { IsWithin (2 ^ 20) a }
    requires b_short { IsWithin (2 ^ 20) b }
    requires c_short { IsWithin (2 ^ 20) c }
    requires d_short { IsWithin (2 ^ 20) d }
    ensures value { result ≡ minor_of a b c d }
    ensures short { IsWithin (2 ^ 41) result }
{
    a * d - b * c
}

// The cross product.
pub(crate) fn cross(a: Vec3, b: Vec3) -> Vec3
    requires a_short { IsShort (2 ^ 20) a }
    requires b_short { IsShort (2 ^ 20) b }
    ensures value { result ≡ cross_of a b }
    ensures short { IsShort (2 ^ 41) result }
{
    Vec3 {
        x: minor(a.y, a.z, b.y, b.z),
        y: minor(a.z, a.x, b.z, b.x),
        z: minor(a.x, a.y, b.x, b.y),
    }
}

// The scalar product.
pub(crate) fn dot(a: Vec3, b: Vec3) -> i64
    requires { DotFits a b }
    ensures value { result ≡ dot_of a b }
    ensures short { IsWithin (3 * 2 ^ 61) result }
{
    a.x * b.x + a.y * b.y + a.z * b.z
}
