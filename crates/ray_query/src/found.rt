ghost use Rattle.std.specs.Prelude.{◌≡◌};
ghost use Rattle.ray_query.specs.Key.{found_key};

use crate::key::Key;
use ray_flags::Kind;
use ray_geom::Frac;

/// What was found on a ray's way: a triangle that it hits, or a box that it meets, and that is
/// admitted. (Vulkan, "Ray Traversal": a candidate intersection.)
#[derive(Clone, Copy, Debug, PartialEq, Eq)]
pub struct Found {
    /// Whether it is a triangle or a box.
    pub kind: Kind,
    /// Whether it counts as opaque, with the bits of the instance and of the ray.
    pub opaque: bool,
    /// The instance's number in its top structure.
    pub instance: u32,
    /// The geometry's number in its bottom structure.
    pub geometry: u32,
    /// The primitive's number in its geometry.
    pub primitive: u32,
    /// The instance's custom index.
    pub custom: u32,
    /// The instance's binding-table offset.
    pub sbt: u32,
    /// Whether the face of a triangle, after the instance's flip, is the front. False for a box.
    pub front: bool,
    /// The distance: of a triangle that of its hit, of a box the entry.
    pub t: Frac,
    /// The distance at which the ray leaves a box. A triangle's is its `t`.
    pub exit: Frac,
    /// The barycentric weight of the second vertex. 0 for a box.
    pub u: Frac,
    /// The barycentric weight of the third vertex. 0 for a box.
    pub v: Frac,
}

impl Found {
    /// By what it is ordered among the candidates of its ray. Own.
    pub fn key(&self) -> Key
        ensures { result ≡ found_key self.now }
    {
        Key {
            t: self.t,
            instance: self.instance,
            geometry: self.geometry,
            primitive: self.primitive,
        }
    }
}
