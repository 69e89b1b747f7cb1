ghost use Rattle.std.specs.Prelude.{◌≡◌};
ghost use Rattle.ray_bottom.specs.Meeting.{meet_value, raw_meet_value};

use crate::meet::Meet;
use ray_geom::{RawHit, Unreduced};
use ray_prune::Span;

/// What a ray meets, its fractions not in lowest terms yet. (Own.)
#[derive(Debug, Drop)]
pub enum RawMeet {
    /// It hits a triangle, in the world.
    Tri(RawHit),
    /// It passes through a box, in the object's space.
    Aabb {
        /// The least distance at which it is inside.
        entry: Unreduced,
        /// The greatest.
        exit: Unreduced,
    },
}

impl RawMeet {
    /// What is met with fractions that are in lowest terms already.
    pub fn of(meet: Meet) -> RawMeet
        ensures { raw_meet_value result ≡ meet_value meet }
    {
        match meet {
            Meet::Tri(hit) => RawMeet::Tri(RawHit {
                t: Unreduced::of(hit.t),
                u: Unreduced::of(hit.u),
                v: Unreduced::of(hit.v),
                den_negative: hit.den_negative,
            }),
            Meet::Aabb(span) => RawMeet::Aabb {
                entry: Unreduced::of(span.entry),
                exit: Unreduced::of(span.exit),
            },
        }
    }

    /// The same in lowest terms.
    pub fn reduced(&self) -> Meet
        ensures { meet_value result ≡ raw_meet_value self.now }
    {
        match self {
            RawMeet::Tri(hit) => Meet::Tri(hit.reduced()),
            RawMeet::Aabb { entry, exit } => Meet::Aabb(Span {
                entry: entry.reduced(),
                exit: exit.reduced(),
            }),
        }
    }
}
