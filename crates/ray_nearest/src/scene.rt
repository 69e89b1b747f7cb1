use crate::node::WalkNode;
use crate::turns::Turns;
use ray_geom::{Ratio, Steps};
use std::alloc::AllocError as NoMemory;
use std::sync::ledger::Ledger;

/// What a walk looks at, for one ray. A call may change what a scene keeps for speed alone, as the
/// ray in the space of the instance that was looked at last: an `impl Model` hides that, since
/// what contracts see of the scene stays. (Own.)
pub trait Scene {
    ghost use Rattle.std.specs.Prelude.{◌≡◌, ◌+◌, ◌≤◌, OnOk};
    ghost use Rattle.ray_nearest.specs.declared.node.WalkNode.{WalkNode};
    ghost use Rattle.ray_nearest.specs.Adding.{AddsNodes, IsOpened};
    ghost use Rattle.ray_nearest.specs.Scene.{SceneValue};

    /// The nodes that it knows.
    ghost IsNode: { Self → WalkNode → Type 0 };

    /// What the ray meets in it.
    ghost scene: { Self → SceneValue };

    /// Adds the turns of the nodes at which a walk begins, except of such as aren't met. Here, and
    /// where a node is opened, one at which nothing is found may be passed by: the nodes below it
    /// are added in its place.
    fn begin(&mut self, turns: &mut Turns) -> Result<(), NoMemory>
        ensures kept { self.new ≡ self.old }
        ensures begun { OnOk result
            (AddsNodes None (scene self.old) (scene self.old).roots turns.old turns.new) };

    /// Opens a node: adds the turns of the nodes right below it and of what is found there, except
    /// of such as aren't met up to the limit. Each primitive that is tested there is a step.
    fn open<L: Ledger>(
        &mut self,
        node: WalkNode,
        limit: Option<Ratio>,
        turns: &mut Turns,
        steps: &mut Steps<L>,
    ) -> Result<(), NoMemory>
        requires known { IsNode self.old node }
        ensures kept { self.new ≡ self.old }
        ensures opened { OnOk result (IsOpened limit (scene self.old) node turns.old turns.new) }
        ensures steps { OnOk result (steps.new ≡ steps.old + (scene self.old).tests node) }
        ensures rising { steps.old ≤ steps.new };
}
