use ray_geom::TriHit;
use ray_prune::Span;

/// What a ray meets: the hit of a triangle, or the span of a box. (Vulkan, "Ray Traversal": the
/// intersection of rays with triangles and with AABBs)
#[derive(Clone, Copy, Debug)]
pub enum Meet {
    /// It hits a triangle, in the world.
    Tri(TriHit),
    /// It passes through a box, in the object's space.
    Aabb(Span),
}
