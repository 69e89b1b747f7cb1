ghost use Rattle.std.specs.Prelude.{◌≡◌, IfOk};
ghost use Rattle.ray_nearest.specs.declared.turn.Turn.TheVariants.{Node, Candidate};
ghost use Rattle.ray_nearest.specs.Kept.{kept_turn};
ghost use Rattle.ray_nearest.specs.Turns.{turn_at};
ghost use Rattle.ray_query.specs.Raw.{reduced_found};
ghost use Rattle.ray_geom.specs.Ratio.{ratio_cmp};
ghost use Rattle.std.specs.declared.cmp.Ordering.TheVariants.{Equal};

use crate::node::WalkNode;
use crate::tie::tie_of;
use ray_geom::Ratio;
use ray_query::RawFound;
use std::alloc::{AllocError as NoMemory, Global};
use std::cmp::Ordering;

// A turn that waits, with its distance. Of two the one that comes first is the greater.
#[derive(Drop)]
pub(crate) struct Waiting {
    pub(crate) at: Ratio,
    pub(crate) kept: Kept,
    pub(crate) ghost same: { ratio_cmp at (turn_at (kept_turn at kept)) ≡ Equal },
}

// What is kept of a turn beside its distance. What was found stands in a box of its own, since it
// is longer than all the rest, and a heap moves what waits.
#[derive(Drop)]
pub(crate) enum Kept {
    Node(WalkNode),
    Candidate(Box<RawFound>),
}

impl Waiting {
    // The turn of a node.
    pub(crate) fn node(entry: Ratio, node: WalkNode) -> Waiting
        ensures { kept_turn result.at result.kept ≡ Node entry node }
    {
        Waiting {
            at: entry,
            kept: Kept::Node(node),
        }
    }

    // The turn of what was found.
    pub(crate) fn candidate(found: Box<RawFound>) -> Waiting
        ensures { kept_turn result.at result.kept ≡ Candidate (reduced_found found.value) }
    {
        Waiting {
            at: found.t.ratio(),
            kept: Kept::Candidate(found),
        }
    }
}

// What was found in a box: in one that is spare, or in a new one.
pub(crate) fn boxed(
    alloc: Global,
    spare: &mut Vec<Box<RawFound>>,
    found: RawFound,
) -> Result<Box<RawFound>, NoMemory>
    ensures { IfOk result (λ kept. kept.value ≡ found) }
{
    match spare.pop() {
        Some(mut kept) => {
            *kept = found;
            Ok(kept)
        }
        None => Ok(Box::new(alloc, found)?),
    }
}

impl Ord for Waiting {
    ghost use Rattle.ray_nearest.specs.TurnLaws.{waiting_cmp, waiting_cmp-total};
    ghost use Rattle.ray_nearest.specs.TurnLaws.{waiting_cmp-partial, waiting_cmp-eq};

    ghost cmp = { waiting_cmp };

    ghost total = { waiting_cmp-total };

    ghost matches_partial_cmp = { waiting_cmp-partial };

    ghost matches_eq = { waiting_cmp-eq };

    fn cmp(&self, other: &Waiting) -> Ordering {
        match other.at.cmp(&self.at) {
            Ordering::Equal => tie_of(other).cmp(&tie_of(self)),
            order => order,
        }
    }
}

impl PartialOrd for Waiting {
    ghost use Rattle.std.specs.Ordering.{as_partial_cmp};
    ghost use Rattle.ray_nearest.specs.TurnLaws.{waiting_cmp, waiting_cmp-laws};

    ghost partial_cmp = { as_partial_cmp waiting_cmp };

    ghost laws = { waiting_cmp-laws };

    fn partial_cmp(&self, other: &Waiting) -> Option<Ordering> {
        Some(self.cmp(other))
    }
}

impl PartialEq for Waiting {
    ghost use Rattle.ray_nearest.specs.TurnLaws.{waiting_eq, waiting_eq-laws};

    ghost eq = { waiting_eq };

    ghost laws = { waiting_eq-laws };

    fn eq(&self, other: &Waiting) -> bool {
        self.cmp(other).is_eq()
    }
}

impl Eq for Waiting {
    ghost use Rattle.ray_nearest.specs.TurnLaws.{waiting_eq-equivalence};

    ghost laws = { waiting_eq-equivalence };
}
