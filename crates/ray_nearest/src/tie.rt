ghost use Rattle.std.specs.Prelude.{◌≡◌};
ghost use Rattle.ray_nearest.specs.TurnLaws.{tie_of, turn_of};

use crate::waiting::{Kept, Waiting};

// By what turns at one distance are ordered: nodes before what was found, and that by its numbers.
#[derive(Clone, Copy, PartialEq, Eq, PartialOrd, Ord)]
pub(crate) struct Tie {
    pub(crate) found: bool,
    pub(crate) instance: u32,
    pub(crate) geometry: u32,
    pub(crate) primitive: u32,
}

// By what a turn that waits is ordered among those at its distance.
pub(crate) fn tie_of(waiting: &Waiting) -> Tie
    ensures { result ≡ tie_of (turn_of waiting.now) }
{
    match &waiting.kept {
        Kept::Node(..) => Tie {
            found: false,
            instance: 0,
            geometry: 0,
            primitive: 0,
        },
        Kept::Candidate(found) => Tie {
            found: true,
            instance: found.instance,
            geometry: found.geometry,
            primitive: found.primitive,
        },
    }
}
