ghost use Rattle.std.specs.Prelude.{ℕ, ◌<◌, IfSome, IfNone, IsSome};
ghost use Rattle.ray_geom.specs.declared.vec3.Vec3.{Vec3};
ghost use Rattle.ray_prune.specs.declared.reach.Reach.{Reach};
ghost use Rattle.ray_geom.specs.Fraction.{IsAtMost};
ghost use Rattle.ray_geom.specs.TriangleHit.{IsHit};
ghost use Rattle.ray_geom.specs.Transform.{identity_value, image_of, world_tri};
ghost use Rattle.ray_geom.specs.Boxes.{IsIn, IsPart};
ghost use Rattle.ray_geom.specs.LeastBoxes.{HoldsTri};
ghost use Rattle.ray_geom.specs.ObjectRay.{object_of};
ghost use Rattle.ray_prune.specs.BoxSpan.{IsInside, IsReach};
ghost use Rattle.ray_prune.specs.BoxReach.{entry_of, reach_of};
ghost use Rattle.ray_prune.specs.Pruning.{IsDistance, HoldsImages};

use ray_geom::{Box3, Matrix, ObjectRay, Ray, Tri};

/// The law of the reach as a value: where `reach_of` gives one it is the reach, and where it gives
/// none no distance is inside. (Own.)
pub fn reach_law(_ray: &ObjectRay, _b: &Box3)
    ensures some { IfSome (reach_of _ray.now _b.now) (IsReach _ray.now _b.now) }
    ensures none { IfNone (reach_of _ray.now _b.now)
        ((n d : ℕ) → 0 < d → ¬ IsInside _ray.now _b.now n d) }
{}

/// The first law of pruning: where the ray hits the world triangle of a triangle, the hit's
/// distance is inside each box of the object's space that holds the triangle, whatever the sign of
/// the determinant. (Own.)
pub fn hit_is_inside(_ray: &Ray, _m: &Matrix, _tri: &Tri, _b: &Box3)
    ensures { HoldsTri _tri.now _b.now → IsHit _ray.now (world_tri _m.now _tri.now) → (n d : ℕ) →
        IsDistance _ray.now (world_tri _m.now _tri.now) n d →
        IsInside (object_of _ray.now _m.now) _b.now n d }
{}

/// The second law of pruning: where a distance is inside a box, the box is met, at an entry of at
/// most that distance. (Own.)
pub fn inside_is_met(_ray: &ObjectRay, _b: &Box3)
    ensures met { (n d : ℕ) → 0 < d → IsInside _ray.now _b.now n d →
        IsSome (reach_of _ray.now _b.now) }
    ensures entry { (n d : ℕ) → 0 < d → IsInside _ray.now _b.now n d →
        IsAtMost (entry_of _ray.now _b.now).num (entry_of _ray.now _b.now).den n d }
{}

/// The third law of pruning: a box in a box is entered no earlier and left no later. (Own.)
pub fn part_is_later(_ray: &ObjectRay, _inner: &Box3, _outer: &Box3)
    ensures inside { IsPart _inner.now _outer.now → (n d : ℕ) →
        IsInside _ray.now _inner.now n d → IsInside _ray.now _outer.now n d }
    ensures entry { IsPart _inner.now _outer.now → (r s : Reach) → IsReach _ray.now _inner.now r →
        IsReach _ray.now _outer.now s → IsAtMost s.entry.num s.entry.den r.entry.num r.entry.den }
    ensures exit { IsPart _inner.now _outer.now → (r s : Reach) → IsReach _ray.now _inner.now r →
        IsReach _ray.now _outer.now s → IsAtMost r.exit.num r.exit.den s.exit.num s.exit.den }
{}

/// The fourth law of pruning: the image of a point of a box is in each world box that holds the
/// images of the box's eight corners. (Own.)
pub fn image_is_held(_m: &Matrix, _b: &Box3, _world: &Box3)
    ensures { HoldsImages _m.now _b.now _world.now → (p : Vec3) → IsIn p _b.now →
        IsIn (image_of _m.now p) _world.now }
{}

/// The fifth law of pruning: what is inside a box of the object's space is inside each world box
/// that holds the images of its eight corners. With it a box of a top tree is met wherever what it
/// holds is. (Own.)
pub fn inside_in_world(_ray: &Ray, _m: &Matrix, _b: &Box3, _world: &Box3)
    ensures { HoldsImages _m.now _b.now _world.now → (n d : ℕ) →
        IsInside (object_of _ray.now _m.now) _b.now n d →
        IsInside (object_of _ray.now identity_value) _world.now n d }
{
    // The determinant isn't 0.
    let _det = _m.det();
}
