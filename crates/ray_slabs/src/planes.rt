ghost use Rattle.std.specs.Prelude.{◌≡◌, ◌≤◌, ◌^◌};
ghost use Rattle.ray_geom.specs.Vector.{IsWithin};
ghost use Rattle.ray_geom.specs.Boxes.{IsBox};
ghost use Rattle.ray_slabs.specs.Keys.{plane_of};
ghost use Rattle.ray_slabs.specs.Bounds.{planes_of, AreStored};

use ray_geom::Box3;

/// The six planes of a box as a node stores them: each as how far it is from -2^19, in 1/1024.
/// (Own.)
#[derive(Clone, Copy, Debug, PartialEq, Eq)]
pub struct Planes {
    /// Where the box begins on x.
    pub lo_x: u32,
    /// Where it begins on y.
    pub lo_y: u32,
    /// Where it begins on z.
    pub lo_z: u32,
    /// Where it ends on x.
    pub hi_x: u32,
    /// Where it ends on y.
    pub hi_y: u32,
    /// Where it ends on z.
    pub hi_z: u32,
}

impl Planes {
    /// The planes of a box.
    pub fn of(b: &Box3) -> Planes
        ensures value { result ≡ planes_of b.now }
        ensures stored { AreStored result }
        ensures limits { IsBox b.now }
    {
        let (lo, hi) = (b.lo(), b.hi());
        Planes {
            lo_x: stored_plane(lo.x),
            lo_y: stored_plane(lo.y),
            lo_z: stored_plane(lo.z),
            hi_x: stored_plane(hi.x),
            hi_y: stored_plane(hi.y),
            hi_z: stored_plane(hi.z),
        }
    }
}

/// A plane as a node stores it. (Own.)
pub fn stored_plane(p: i64) -> u32
    requires { IsWithin (2 ^ 19) p }
    ensures value { result ≡ plane_of p }
    ensures short { result ≤ 2 ^ 30 }
{
    ((p + (1 << 19)) as u32) * 1024
}
