ghost use Rattle.std.specs.Prelude.{◌≡◌, ◌≤◌, ◌^◌, ℕ, List, IfOk, None, length, suc};
ghost use Rattle.std.specs.Option.{option_map_or};
ghost use Rattle.ray_access.specs.Lists.{AreTouched};
ghost use Rattle.ray_hazards.specs.Checks.{IsDoing};
ghost use Rattle.ray_hazards.specs.Lasts.{ArePlaced, HaveStarts};
ghost use Rattle.ray_hazards.specs.Reaching.{AreReached};
ghost use Rattle.ray_queues.specs.QueueOrder.{queue_order};
ghost use Rattle.ray_queues.specs.Refusals.{first_queue_refusal};
ghost use Rattle.ray_rules.specs.declared.touch.Touch.{Touch as ATouch};
ghost use Rattle.ray_rules.specs.Hazards.{greatest_with, read_unordered, status_at};
ghost use Rattle.ray_rules.specs.Hazards.{v25, v26, v27, v32, wrote_uncovered};
ghost use Rattle.ray_rules.specs.Verdict.{GoOn, first_hazard, hazard_of};
ghost use Rattle.ray_submits.specs.Submits.{QueueCommands};
ghost use Rattle.ray_queue_check.specs.Kept.{IsKept, IsOf};
ghost use Rattle.ray_queue_check.specs.Lanes.{AllRoomy};

use crate::hazards::{last_uncovered, last_unordered};
use crate::kept::Kept;
use crate::sooner::sooner;
use ray_access::{Touched, sharing_is_meeting};
use ray_cmd::{Place, Refusal};
use ray_hazards::{Cells, Doing, Tops, doing_of, earlier, least, starts_of};
use ray_queues::{QueueOrder, QueueRecording, check_semaphores};
use ray_rules::Stage;
use ray_status::Status;
use ray_sync::chain_stage;
use std::alloc::{AllocError as NoMemory, Global};

// The greatest number of cells, 2^32.
const MOST_CELLS: usize = 4_294_967_296;

/// The refusal of the first command that an order over queues is of which breaks V25, V26, V27,
/// V32, V33 or V34, by the least that it breaks. None exactly where none does. A command is at odds
/// with the greatest earlier one that it isn't ordered with, or whose write isn't covered to it, as
/// the place. It takes n log n steps in the number n of commands, of what they read and write, and
/// of waits and signals.
///
/// # Errors
///
/// For want of memory alone.
pub fn check_queues(
    alloc: Global,
    rec: &QueueRecording,
    order: &QueueOrder,
) -> Result<Option<Refusal>, NoMemory>
    requires until { length order.now ≤ length rec.now.commands }
    requires go_on { GoOn rec.now.commands (length order.now) }
    ensures { IfOk result (λ refusal. refusal ≡ first_queue_refusal rec.now (length order.now)) }
{
    let count = rec.recording().len();
    let until = order.until() as u32;
    let starts = starts_of(alloc, rec.recording(), until)?;
    let cells = Cells::of(alloc, &starts)?;
    if MOST_CELLS < cells.count() {
        return Err(NoMemory);
    }
    let hazard = checked(alloc, rec, until, &cells)?;
    let semaphore = check_semaphores(alloc, rec, until)?;
    Ok(sooner(hazard, semaphore))
}

// That of the first command below a number which breaks a rule on hazards, where the axis is cut at
// all that commands touch.
fn checked(
    alloc: Global,
    rec: &QueueRecording,
    until: u32,
    cells: &Cells,
) -> Result<Option<Refusal>, NoMemory>
    requires until { until ≤ length rec.now.commands }
    requires cells { length cells.now ≤ 2 ^ 32 }
    requires go_on { GoOn rec.now.commands until }
    requires starts { HaveStarts rec.now.commands cells.now until }
    ensures { IfOk result (λ hazard.
        hazard ≡ first_hazard (queue_order rec.now) rec.now.commands until) }
{
    rec.queues_law();
    let mut kept = Kept::new(alloc);
    let mut tops = Tops::none(alloc);
    let mut status = Status::new(alloc);
    for n in 0..until {
        let command = rec.recording().command(n);
        let queue = rec.queue_of(n);
        let doing = doing_of(alloc, rec.recording(), &status, command, &mut tops, cells)?;
        if let Some(refusal) = hazard_of(n, queue, &doing, &kept, cells) {
            return Ok(Some(refusal));
        }
        kept.pass(alloc, rec, n, &doing, &status, cells)?;
        tops.pass(alloc, command);
        status.step(n, command)?;
    }
    Ok(None)
}

// The refusal of command number `n`, of a queue, by the least rule on hazards that it breaks.
fn hazard_of(n: u32, queue: u32, doing: &Doing, kept: &Kept, cells: &Cells) -> Option<Refusal>
    requires { AllRoomy (length cells.now) kept.now.lanes }
    ensures { (q : QueueCommands) → IsOf q n queue → IsKept q cells.now n kept.now
        → IsDoing q.commands cells.now n doing.now → HaveStarts q.commands cells.now (suc n)
        → result ≡ hazard_of (queue_order q) q.commands n }
{
    let read = v25(queue, doing, kept, cells);
    let written = v26(queue, doing, kept, cells);
    let overwritten = v27(queue, doing, kept, cells);
    let shown = v32(queue, doing, kept, cells);
    least(n, read, written, overwritten, shown)
}

// V25: the last command that wrote what a command reads, not covered.
fn v25(queue: u32, doing: &Doing, kept: &Kept, cells: &Cells) -> Option<Place>
    requires { AllRoomy (length cells.now) kept.now.lanes }
    ensures { (q : QueueCommands) (n : ℕ) → IsOf q n queue → IsKept q cells.now n kept.now
        → IsDoing q.commands cells.now n doing.now → HaveStarts q.commands cells.now (suc n)
        → result ≡ v25 (queue_order q) q.commands n }
{
    uncovered_at(
        queue,
        doing.stage,
        doing.touches.reads.as_slice(),
        kept,
        cells,
    )
}

// V26: the last command that wrote what a command writes, not covered.
fn v26(queue: u32, doing: &Doing, kept: &Kept, cells: &Cells) -> Option<Place>
    requires { AllRoomy (length cells.now) kept.now.lanes }
    ensures { (q : QueueCommands) (n : ℕ) → IsOf q n queue → IsKept q cells.now n kept.now
        → IsDoing q.commands cells.now n doing.now → HaveStarts q.commands cells.now (suc n)
        → result ≡ v26 (queue_order q) q.commands n }
{
    uncovered_at(
        queue,
        doing.stage,
        doing.touches.writes.as_slice(),
        kept,
        cells,
    )
}

// V27: the last command that read what a command writes, not ordered before it.
fn v27(queue: u32, doing: &Doing, kept: &Kept, cells: &Cells) -> Option<Place>
    requires { AllRoomy (length cells.now) kept.now.lanes }
    ensures { (q : QueueCommands) (n : ℕ) → IsOf q n queue → IsKept q cells.now n kept.now
        → IsDoing q.commands cells.now n doing.now → HaveStarts q.commands cells.now (suc n)
        → result ≡ v27 (queue_order q) q.commands n }
{
    unordered_at(
        queue,
        doing.stage,
        doing.touches.writes.as_slice(),
        kept,
        cells,
    )
}

// V32: the last command that wrote what a `read` shows, not covered to the host of some queue.
fn v32(queue: u32, doing: &Doing, kept: &Kept, cells: &Cells) -> Option<Place>
    requires { AllRoomy (length cells.now) kept.now.lanes }
    ensures { (q : QueueCommands) (n : ℕ) → IsOf q n queue → IsKept q cells.now n kept.now
        → IsDoing q.commands cells.now n doing.now → HaveStarts q.commands cells.now (suc n)
        → result ≡ v32 (queue_order q) q.commands n }
{
    uncovered(queue, Stage::Host, doing.host.as_slice(), kept, cells)
}

// The last command that wrote what these touches at the stage of a command reach, not covered.
fn uncovered_at(
    queue: u32,
    stage: Option<Stage>,
    touches: &[Touched],
    kept: &Kept,
    cells: &Cells,
) -> Option<Place>
    requires { AllRoomy (length cells.now) kept.now.lanes }
    ensures { (q : QueueCommands) (n : ℕ) (ts : List ATouch) → IsOf q n queue
        → IsKept q cells.now n kept.now → AreReached (status_at q.commands n) cells.now ts touches.now
        → ArePlaced q.commands cells.now n ts
        → HaveStarts q.commands cells.now n
        → result ≡ option_map_or
        (λ to. greatest_with (wrote_uncovered (queue_order q) q.commands n to) ts n) stage None }
{
    match stage {
        Some(to) => uncovered(queue, to, touches, kept, cells),
        None => None,
    }
}

// The last command that wrote what these touches at a stage reach, not covered.
fn uncovered(
    queue: u32,
    to: Stage,
    touches: &[Touched],
    kept: &Kept,
    cells: &Cells,
) -> Option<Place>
    requires { AllRoomy (length cells.now) kept.now.lanes }
    ensures { (q : QueueCommands) (n : ℕ) (ts : List ATouch) → IsOf q n queue
        → IsKept q cells.now n kept.now → AreReached (status_at q.commands n) cells.now ts touches.now
        → ArePlaced q.commands cells.now n ts
        → HaveStarts q.commands cells.now n
        → result ≡ greatest_with (wrote_uncovered (queue_order q) q.commands n to) ts n }
{
    sharing_is_meeting();
    earlier(last_uncovered(&kept.lanes, &kept.everywhere, queue, to, touches, cells))
}

// The last command that read what these touches at the stage of a command reach, not ordered before
// it.
fn unordered_at(
    queue: u32,
    stage: Option<Stage>,
    touches: &[Touched],
    kept: &Kept,
    cells: &Cells,
) -> Option<Place>
    requires { AllRoomy (length cells.now) kept.now.lanes }
    ensures { (q : QueueCommands) (n : ℕ) (ts : List ATouch) → IsOf q n queue
        → IsKept q cells.now n kept.now → AreTouched (status_at q.commands n) ts touches.now
        → ArePlaced q.commands cells.now n ts
        → HaveStarts q.commands cells.now n
        → result ≡ option_map_or
        (λ to. greatest_with (read_unordered (queue_order q) q.commands n to) ts n) stage None }
{
    match stage {
        Some(to) => unordered(queue, to, touches, kept, cells),
        None => None,
    }
}

// The last command that read what these touches at a stage reach, not ordered before it.
fn unordered(
    queue: u32,
    to: Stage,
    touches: &[Touched],
    kept: &Kept,
    cells: &Cells,
) -> Option<Place>
    requires { AllRoomy (length cells.now) kept.now.lanes }
    ensures { (q : QueueCommands) (n : ℕ) (ts : List ATouch) → IsOf q n queue
        → IsKept q cells.now n kept.now → AreTouched (status_at q.commands n) ts touches.now
        → ArePlaced q.commands cells.now n ts
        → HaveStarts q.commands cells.now n
        → result ≡ greatest_with (read_unordered (queue_order q) q.commands n to) ts n }
{
    sharing_is_meeting();
    let limits = kept.keeping.ordered(queue, chain_stage(to));
    earlier(last_unordered(&kept.lanes, limits, touches, cells))
}
