ghost use Rattle.std.specs.Prelude.{◌≡◌, ◌↔◌, ◌<◌, ◌<ℤ◌, ℕ, pos, IsTrue};
ghost use Rattle.ray_geom.specs.declared.vec3.Vec3.{Vec3};
ghost use Rattle.ray_geom.specs.Vector.{dot_of};
ghost use Rattle.ray_geom.specs.Scene.{RayValue, TriValue};
ghost use Rattle.ray_geom.specs.TriangleHit.{den_of, IsHit, Tells};
ghost use Rattle.ray_geom.specs.Transform.{det_of, world_tri};
ghost use Rattle.ray_geom.specs.ObjectRay.{MapsTo, object_of};
ghost use Rattle.ray_prune.specs.Facing.{normal_of_tri, IsFront, is_front};

use ray_geom::{Matrix, Ray, Tri, TriHit};

/// Whether the ray saw the front of the triangle, before any flip of the instance's: the
/// determinant in the direction and that of the instance's matrix have opposite signs. The hit
/// is that of the world triangle. (Vulkan, "Ray Traversal": facing in the object's space; own:
/// the numbers.)
pub fn is_front(hit: &TriHit, m: &Matrix) -> bool
    ensures value { result ≡ is_front hit.now.den_negative (det_of m.now) }
    ensures front { (ray : RayValue) (tri : TriValue) → IsHit ray (world_tri m.now tri) →
        Tells ray (world_tri m.now tri) hit.now → IsTrue result ↔ IsFront ray m.now tri }
{
    is_opposite(hit.den_negative, m.det())
}

// Whether det and den have opposite signs.
fn is_opposite(den_negative: bool, det: i64) -> bool
    ensures { result ≡ is_front den_negative det }
{
    den_negative != (det < 0)
}

/// The law of facing: the determinant of the world triangle is the product of the object ray's
/// direction with the triangle's normal; and a triangle is seen from its front exactly where each
/// direction of the object's space that the transform takes to the ray's direction, or to a
/// multiple of it, has a negative product with the normal. (Own; for facing in "Ray Traversal" of
/// the Vulkan specification.)
pub fn facing_law(_ray: &Ray, _m: &Matrix, _tri: &Tri)
    ensures product { den_of _ray.now (world_tri _m.now _tri.now) ≡
        dot_of (object_of _ray.now _m.now).dir (normal_of_tri _tri.now) }
    ensures against { (w : Vec3) (k : ℕ) → 0 < k → MapsTo _m.now w (pos k) _ray.now.dir →
        IsFront _ray.now _m.now _tri.now ↔ (dot_of w (normal_of_tri _tri.now) <ℤ pos 0) }
{
    // The determinant isn't 0.
    let _det = _m.det();
}
