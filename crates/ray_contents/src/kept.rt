ghost use Rattle.std.specs.Prelude.{◌≡◌, ◌^◌, ◌↔◌, IsTrue};
ghost use Rattle.ray_geom.specs.declared.vec3.Vec3.{Vec3};
ghost use Rattle.ray_geom.specs.Vector.{IsShort};
ghost use Rattle.ray_geom.specs.Boxes.{IsIn};
ghost use Rattle.ray_geom.specs.Transform.{image_of};
ghost use Rattle.ray_prune.specs.Pruning.{KeepsCorners};
ghost use Rattle.ray_contents.specs.Bounds.{KeepsBounds};

use ray_geom::{Box3, Matrix, Vec3};
use ray_prune::keeps_corners;

/// Whether the images of the eight corners of bounds, if there are any, are within the limits.
/// (Own.)
pub fn keeps_bounds(m: &Matrix, bounds: Option<Box3>) -> bool
    ensures { IsTrue result ↔ KeepsBounds m.now bounds }
{
    match bounds {
        Some(b) => keeps_corners(m, &b),
        None => true,
    }
}

/// The image of a point, where it is known to be within the limits. (Own.)
pub fn kept_image(m: &Matrix, v: Vec3) -> Vec3
    requires short { IsShort (2 ^ 19) v }
    requires kept { IsShort (2 ^ 19) (image_of m.now v) }
    ensures value { result ≡ image_of m.now v }
    ensures limits { IsShort (2 ^ 19) result }
{
    m.image(v)
}

/// The law of bounds that are kept: where the images of the eight corners of a box are within the
/// limits, so is the image of each point of the box. (Own.)
pub fn image_law(_m: &Matrix, _bounds: &Box3)
    ensures { KeepsCorners _m.now _bounds.now → (p : Vec3) → IsIn p _bounds.now →
        IsShort (2 ^ 19) (image_of _m.now p) }
{}
