ghost use Rattle.std.specs.Prelude.{◌≡◌, ◌^◌, ◌↔◌, IsTrue};
ghost use Rattle.std.specs.List.{All};
ghost use Rattle.ray_geom.specs.declared.vec3.Vec3.{Vec3};
ghost use Rattle.ray_geom.specs.Vector.{IsShort};
ghost use Rattle.ray_geom.specs.Transform.{image_of};
ghost use Rattle.ray_geom.specs.Boxes.{IsIn};
ghost use Rattle.ray_geom.specs.LeastBoxes.{point_box, joined_of, IsLeast};
ghost use Rattle.ray_prune.specs.Pruning.{HoldsImages, KeepsCorners, box_of_images};

use ray_geom::{Box3, Matrix, Vec3};

/// Whether the images of the eight corners of a box are within the limits. Then so is the image
/// of each point of the box.
pub fn keeps_corners(m: &Matrix, b: &Box3) -> bool
    ensures corners { IsTrue result ↔ KeepsCorners m.now b.now }
    ensures points { IsTrue result →
        (p : Vec3) → IsIn p b.now → IsShort (2 ^ 19) (image_of m.now p) }
{
    are_kept(m, &b.corners())
}

/// The least world box that holds the images of the eight corners of a box. (Own.)
pub fn image_box(m: &Matrix, b: &Box3) -> Box3
    requires { KeepsCorners m.now b.now }
    ensures { IsLeast (HoldsImages m.now b.now) result }
{
    joined_images(m, &b.corners()).unwrap()
}

// Whether the images of points are within the limits.
fn are_kept(m: &Matrix, points: &[Vec3]) -> bool
    requires { All (IsShort (2 ^ 19)) points.now }
    ensures { IsTrue result ↔ All (λ p. IsShort (2 ^ 19) (image_of m.now p)) points.now }
{
    points.iter().all(|p| m.apply(*p).is_some())
}

// The union of the images of points.
#[tactic(auto, using(std::proofs::lemmas::List::Sums::fold_more))]
fn joined_images(m: &Matrix, points: &[Vec3]) -> Option<Box3>
    requires short { All (IsShort (2 ^ 19)) points.now }
    requires kept { All (λ p. IsShort (2 ^ 19) (image_of m.now p)) points.now }
    ensures { result ≡ box_of_images m.now points.now }
{
    let mut least = None;
    for p in points {
        least = widened(least, image(m, *p));
    }
    least
}

// The image of a point, within the limits.
fn image(m: &Matrix, p: Vec3) -> Vec3
    requires short { IsShort (2 ^ 19) p }
    requires kept { IsShort (2 ^ 19) (image_of m.now p) }
    ensures { result ≡ image_of m.now p }
{
    m.image(p)
}

// The union of what there is so far and the box of one point more.
fn widened(so_far: Option<Box3>, v: Vec3) -> Option<Box3>
    requires { IsShort (2 ^ 19) v }
    ensures { result ≡ joined_of so_far (point_box v) }
{
    match so_far {
        None => Some(Box3::of_point(v)),
        Some(b) => Some(b.with_point(v)),
    }
}
