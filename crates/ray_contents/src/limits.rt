ghost use Rattle.std.specs.Prelude.{◌≡◌, ◌^◌, SomeIff, IfSome};
ghost use Rattle.ray_geom.specs.Vector.{IsShort};
ghost use Rattle.ray_geom.specs.Transform.{IsMatrix, matrix_of, table_of, image_of};
ghost use Rattle.ray_contents.specs.Limits.{point_within, image_within, matrix_within};

use ray_geom::{Matrix, Vec3, is_short};

/// The point, where each coordinate is at most 2^19 in absolute value. (Own.)
pub fn point_within(v: Vec3) -> Option<Vec3>
    ensures value { result ≡ point_within v }
    ensures limits { SomeIff result (IsShort (2 ^ 19) v) v }
    ensures short { IfSome result (IsShort (2 ^ 19)) }
{
    short(v)
}

/// The image of a point under a transform, where each coordinate of it is at most 2^19 in absolute
/// value. (Own.)
pub fn image_within(m: &Matrix, v: Vec3) -> Option<Vec3>
    requires { IsShort (2 ^ 19) v }
    ensures value { result ≡ image_within m.now v }
    ensures limits { let image = image_of m.now v in
        SomeIff result (IsShort (2 ^ 19) image) image }
    ensures short { IfSome result (IsShort (2 ^ 19)) }
{
    m.apply(v)
}

/// The transform of the twelve numbers of a record, row by row, where it is within the limits of
/// transforms. (Own; VkTransformMatrixKHR.)
pub fn matrix_within(words: [i32; 12]) -> Option<Matrix>
    ensures value { result ≡ matrix_within (matrix_of (table_of words)) }
    ensures limits { let m = matrix_of (table_of words) in SomeIff result (IsMatrix m) m }
{
    Matrix::from_words(words)
}

// The point, where it is within the limits.
fn short(v: Vec3) -> Option<Vec3>
    ensures limits { SomeIff result (IsShort (2 ^ 19) v) v }
    ensures short { IfSome result (IsShort (2 ^ 19)) }
{
    if is_short(v, 1 << 19) { Some(v) } else { None }
}
