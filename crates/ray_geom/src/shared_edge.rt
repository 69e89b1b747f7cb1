ghost use Rattle.std.specs.Prelude.{◌≡◌, ◌↔◌, ◌+◌, ◌<◌};
ghost use Rattle.ray_geom.specs.TriangleHit.{IsHit};
ghost use Rattle.ray_geom.specs.Crossing.{vertex_of, Crossing, IsFacedAlike};

use crate::hit::hit_tri;
use crate::owner::Owner;
use crate::ray::Ray;
use crate::tri::Tri;

/// Which of two triangles the ray hits where its line crosses the interior of the edge that they
/// share. Exactly one of them is hit: no crossing is counted twice, and none is lost. The edge goes
/// from vertex `i` of `first` to the next, and from vertex `j` of `second` to the next the other way
/// round, so the two are wound alike; and the ray sees both from one side. Nothing is said of a ray
/// through a vertex. (Own; the Vulkan specification asks for it in "Ray Traversal", as watertight
/// edges.)
pub fn edge_owner(ray: &Ray, first: &Tri, second: &Tri, i: u8, j: u8) -> Owner
    requires first_vertex { i < 3 }
    requires second_vertex { j < 3 }
    requires starts { vertex_of first.now i ≡ vertex_of second.now (j + 1) }
    requires ends { vertex_of first.now (i + 1) ≡ vertex_of second.now j }
    requires crossing { Crossing ray.now (vertex_of first.now i) (vertex_of first.now (i + 1)) }
    requires alike { IsFacedAlike ray.now first.now second.now }
    ensures first { (result ≡ Owner.First) ↔ (IsHit ray.now first.now × (¬ IsHit ray.now second.now)) }
    ensures second { (result ≡ Owner.Second) ↔ ((¬ IsHit ray.now first.now) × IsHit ray.now second.now) }
{
    if hit_tri(ray, first).is_some() {
        Owner::First
    } else {
        Owner::Second
    }
}
