ghost use Rattle.std.specs.Prelude.{◌≡◌, ℕ, List, length};
ghost use Rattle.ray_cmd.specs.declared.command.Command.{Command as ACommand};
ghost use Rattle.ray_hazards.specs.Carrying.{AreCarried};
ghost use Rattle.ray_hazards.specs.Lanes.{AreCoveredBelow, AreEnough, AreLanes, AreOrdered};
ghost use Rattle.ray_hazards.specs.Lanes.{MeetsUncovered, MeetsUnordered};
ghost use Rattle.ray_hazards.specs.Lasts.{AnyOf, IsLast};
ghost use Rattle.ray_rules.specs.declared.stage.Stage.{Stage as AStage};
ghost use Rattle.ray_sync.specs.OneQueue.{in_order, one_queue};

use crate::events::{chain_access, chain_stage};
use crate::per_kind::greater;
use ray_access::Touched;
use ray_hazards::{Accessed, Cells, Coverage, Lanes, PerStage, PerWay};
use ray_rules::Stage;

// One more than the last command that wrote what one of these touches reaches, not covered to it at
// a stage, and 0 where there is none.
pub(crate) fn last_uncovered(
    lanes: &Lanes,
    coverage: &Coverage,
    to: Stage,
    touches: &[Touched],
    cells: &Cells,
) -> u32
    requires { AreEnough (length cells.now) lanes.now }
    ensures { (rec : List ACommand) (n : ℕ) → AreLanes (in_order rec) cells.now n lanes.now
        → AreCarried (one_queue rec) 0 n coverage.now
        → IsLast (λ i. AnyOf (λ t. MeetsUncovered (in_order rec) cells.now n to t i) touches.now) n
        result }
{
    let mut last = 0;
    for touch in touches {
        let start = cells.at(touch.range.from);
        let end = cells.at(touch.range.end);
        let limits = limits_to(
            coverage,
            Accessed {
                thing: touch.buffer,
                stage: to,
                access: touch.access,
            },
        );
        let one = lanes.last_uncovered(limits, start, end);
        last = greater(last, one);
    }
    last
}

// Below which numbers what was written in each way is covered to an access.
fn limits_to(coverage: &Coverage, accessed: Accessed) -> PerWay
    ensures { (rec : List ACommand) (n : ℕ) → AreCarried (one_queue rec) 0 n coverage.now
        → AreCoveredBelow (in_order rec) n accessed result }
{
    let stage = chain_stage(accessed.stage);
    let access = chain_access(accessed.access);
    coverage.limits(accessed.thing, stage, access)
}

// One more than the last command that read what one of these touches reaches, not ordered before a
// stage, and 0 where there is none. Below these numbers commands are.
pub(crate) fn last_unordered(
    lanes: &Lanes,
    limits: PerStage,
    touches: &[Touched],
    cells: &Cells,
) -> u32
    requires { AreEnough (length cells.now) lanes.now }
    ensures { (rec : List ACommand) (n : ℕ) (to : AStage)
        → AreLanes (in_order rec) cells.now n lanes.now → AreOrdered (in_order rec) n to limits
        → IsLast (λ i. AnyOf (λ t. MeetsUnordered (in_order rec) cells.now n to t i) touches.now) n
        result }
{
    let mut last = 0;
    for touch in touches {
        let start = cells.at(touch.range.from);
        let end = cells.at(touch.range.end);
        let one = lanes.last_unordered(limits, start, end);
        last = greater(last, one);
    }
    last
}
