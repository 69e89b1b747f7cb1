ghost use Rattle.std.specs.Prelude.{◌≡◌};
ghost use Rattle.ray_geom.specs.Boxes.{IsIn, IsPart};
ghost use Rattle.ray_geom.specs.LeastBoxes.{union_of};

use ray_geom::{Box3, Vec3};

/// The law of unions: neither their order nor how often a box is counted changes a union. (Own.)
pub fn union_law(_a: &Box3, _b: &Box3, _c: &Box3)
    ensures commutes { union_of _a.now _b.now ≡ union_of _b.now _a.now }
    ensures associates { union_of (union_of _a.now _b.now) _c.now ≡ union_of _a.now (union_of _b.now _c.now) }
    ensures idempotent { union_of _a.now _a.now ≡ _a.now }
{}

/// The law of boxes in boxes: what is in the inner box is in the outer one, and boxes that are in
/// each other are identical. (Own.)
pub fn part_law(_inner: &Box3, _outer: &Box3)
    ensures points { IsPart _inner.now _outer.now →
        (p : Vec3) → IsIn p _inner.now → IsIn p _outer.now }
    ensures same { IsPart _inner.now _outer.now → IsPart _outer.now _inner.now →
        _inner.now ≡ _outer.now }
{}
