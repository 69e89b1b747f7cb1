ghost use Rattle.std.specs.Prelude.{◌≡◌, ◌<◌, ℕ, length};
ghost use Rattle.ray_hazards.specs.Lasts.{AnyOf, IsLast};
ghost use Rattle.ray_rules.specs.declared.stage.Stage.{Stage as AStage};
ghost use Rattle.ray_submits.specs.Submits.{QueueCommands, queue_of};
ghost use Rattle.ray_queue_check.specs.Arriving.{AreArriving};
ghost use Rattle.ray_queue_check.specs.Lanes.{AllRoomy, AreAllOrdered, AreUsed, MeetsRead};
ghost use Rattle.ray_queue_check.specs.Lanes.{MeetsWritten};

use crate::everywhere::Everywhere;
use crate::lanes::QueueLanes;
use crate::per_source::greater;
use ray_access::Touched;
use ray_hazards::{Accessed, Cells};
use ray_queues::PerQueue;
use ray_rules::Stage;

// One more than the last command that wrote what one of these touches by a command of a queue
// reaches, not covered to it at a stage, and 0 where there is none.
pub(crate) fn last_uncovered(
    lanes: &QueueLanes,
    everywhere: &Everywhere,
    queue: u32,
    to: Stage,
    touches: &[Touched],
    cells: &Cells,
) -> u32
    requires { AllRoomy (length cells.now) lanes.now }
    ensures { queue < 4 → (q : QueueCommands) (n : ℕ) → queue ≡ queue_of q n
        → AreUsed q cells.now n lanes.now → AreArriving q n everywhere.now
        → IsLast (λ i. AnyOf (λ t. MeetsWritten q cells.now n to t i) touches.now) n result }
{
    let mut last = 0;
    for touch in touches {
        let start = cells.at(touch.range.from);
        let end = cells.at(touch.range.end);
        let limits = everywhere.limits(
            queue,
            Accessed {
                thing: touch.buffer,
                stage: to,
                access: touch.access,
            },
        );
        let one = lanes.last_uncovered(limits, start, end);
        last = greater(last, one);
    }
    last
}

// One more than the last command that read what one of these touches reaches, not ordered before a
// stage, and 0 where there is none. Below these numbers commands are.
pub(crate) fn last_unordered(
    lanes: &QueueLanes,
    limits: PerQueue,
    touches: &[Touched],
    cells: &Cells,
) -> u32
    requires { AllRoomy (length cells.now) lanes.now }
    ensures { (q : QueueCommands) (n : ℕ) (to : AStage) → AreUsed q cells.now n lanes.now
        → AreAllOrdered q n to limits
        → IsLast (λ i. AnyOf (λ t. MeetsRead q cells.now n to t i) touches.now) n result }
{
    let mut last = 0;
    for touch in touches {
        let start = cells.at(touch.range.from);
        let end = cells.at(touch.range.end);
        let one = lanes.last_unordered(limits, start, end);
        last = greater(last, one);
    }
    last
}
