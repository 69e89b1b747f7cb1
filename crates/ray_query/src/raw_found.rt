ghost use Rattle.std.specs.Prelude.{◌≡◌};
ghost use Rattle.ray_query.specs.Raw.{reduced_found};

use crate::found::Found;
use ray_flags::Kind;
use ray_geom::Unreduced;

/// What was found on a ray's way, its fractions not in lowest terms yet: not all that a walk finds
/// is offered or committed. (Own.)
#[derive(Debug, Drop)]
pub struct RawFound {
    /// Whether it is a triangle or a box.
    pub kind: Kind,
    /// Whether it counts as opaque, with the bits of the instance and of the ray.
    pub opaque: bool,
    /// The instance's number in its top structure.
    pub instance: u32,
    /// The geometry's number in its bottom structure.
    pub geometry: u32,
    /// The primitive's number in its geometry.
    pub primitive: u32,
    /// The instance's custom index.
    pub custom: u32,
    /// The instance's binding-table offset.
    pub sbt: u32,
    /// Whether the face of a triangle, after the instance's flip, is the front. False for a box.
    pub front: bool,
    /// The distance: of a triangle that of its hit, of a box the entry.
    pub t: Unreduced,
    /// The distance at which the ray leaves a box. None where it is `t`, as a triangle's is.
    pub exit: Option<Unreduced>,
    /// The barycentric weight of the second vertex. 0 for a box.
    pub u: Unreduced,
    /// The barycentric weight of the third vertex. 0 for a box.
    pub v: Unreduced,
}

impl RawFound {
    /// What was found with fractions that are in lowest terms already.
    pub fn of(found: Found) -> RawFound
        ensures { reduced_found result ≡ found }
    {
        RawFound {
            kind: found.kind,
            opaque: found.opaque,
            instance: found.instance,
            geometry: found.geometry,
            primitive: found.primitive,
            custom: found.custom,
            sbt: found.sbt,
            front: found.front,
            t: Unreduced::of(found.t),
            exit: Some(Unreduced::of(found.exit)),
            u: Unreduced::of(found.u),
            v: Unreduced::of(found.v),
        }
    }

    /// The same with fractions in lowest terms.
    pub fn reduced(&self) -> Found
        ensures { result ≡ reduced_found self.now }
    {
        let t = self.t.reduced();
        Found {
            kind: self.kind,
            opaque: self.opaque,
            instance: self.instance,
            geometry: self.geometry,
            primitive: self.primitive,
            custom: self.custom,
            sbt: self.sbt,
            front: self.front,
            t,
            exit: match &self.exit {
                Some(exit) => exit.reduced(),
                None => t,
            },
            u: self.u.reduced(),
            v: self.v.reduced(),
        }
    }
}
