ghost use Rattle.std.specs.Prelude.{◌≡◌, ◌≤◌, ◌+◌, ◌^◌, ◌<◌, ◌==◌, ℕ, List, IfOk, OnOk};
ghost use Rattle.std.specs.Prelude.{length, suc, true};
ghost use Rattle.ray_hazards.specs.declared.limits.Accessed.{Accessed as AnAccessed};
ghost use Rattle.ray_hazards.specs.Checks.{IsDoing};
ghost use Rattle.ray_hazards.specs.Lanes.{AnyUncovered, AnyUnordered, AreCoveredBelow, AreLanes};
ghost use Rattle.ray_hazards.specs.Lanes.{AreOrdered, LanesBelow};
ghost use Rattle.ray_hazards.specs.Lasts.{IsLast};
ghost use Rattle.ray_rules.specs.declared.stage.Stage.{Stage as AStage};
ghost use Rattle.ray_submits.specs.Submits.{QueueCommands, queue_of};
ghost use Rattle.ray_queue_check.specs.Lanes.{AllLow, AllRoomy, AreAllCovered, AreAllOrdered};
ghost use Rattle.ray_queue_check.specs.Lanes.{AreLow, AreRoomy, AreUsed, IsUsed, SomeUncovered};
ghost use Rattle.ray_queue_check.specs.Lanes.{SomeUnordered, from_queue, stage_limits};

use crate::per_source::{PerSource, greater};
use ray_hazards::{Cells, Doing, Lanes, PerWay};
use ray_queues::{PerQueue, PerStage};
use std::alloc::{AllocError as NoMemory, Global};

/// What is kept of the commands of each queue that has done anything.
#[derive(Drop)]
pub(crate) struct QueueLanes {
    pub(crate) zero: Option<Lanes>,
    pub(crate) one: Option<Lanes>,
    pub(crate) two: Option<Lanes>,
    pub(crate) three: Option<Lanes>,
}

impl QueueLanes {
    // No queue has.
    pub(crate) fn none() -> QueueLanes
        ensures { (q : QueueCommands) (starts : List ℕ) → AreUsed q starts 0 result }
    {
        QueueLanes {
            zero: None,
            one: None,
            two: None,
            three: None,
        }
    }

    // One more than the last command that wrote in cells from `start` on and below `end`, where
    // that isn't covered to an access; and else 0. These are the numbers below which it is.
    pub(crate) fn last_uncovered(&self, limits: PerSource, start: usize, end: usize) -> u32
        requires { AllRoomy end self.now }
        ensures { (q : QueueCommands) (starts : List ℕ) (n : ℕ) (accessed : AnAccessed)
            → AreUsed q starts n self.now → AreAllCovered q n accessed limits
            → IsLast (SomeUncovered q starts accessed.thing n accessed.stage
            accessed.access start end) n result }
    {
        let zero = uncovered_in(&self.zero, limits.zero, start, end);
        let one = uncovered_in(&self.one, limits.one, start, end);
        let two = uncovered_in(&self.two, limits.two, start, end);
        let three = uncovered_in(&self.three, limits.three, start, end);
        greater(greater(zero, one), greater(two, three))
    }

    // One more than the last command that read there, where that isn't ordered before a stage; and
    // else 0. These are the numbers below which it is.
    pub(crate) fn last_unordered(&self, limits: PerQueue, start: usize, end: usize) -> u32
        requires { AllRoomy end self.now }
        ensures { (q : QueueCommands) (starts : List ℕ) (n : ℕ) (to : AStage)
            → AreUsed q starts n self.now → AreAllOrdered q n to limits
            → IsLast (SomeUnordered q starts n to start end) n result }
    {
        let zero = unordered_in(&self.zero, limits.zero, start, end);
        let one = unordered_in(&self.one, limits.one, start, end);
        let two = unordered_in(&self.two, limits.two, start, end);
        let three = unordered_in(&self.three, limits.three, start, end);
        greater(greater(zero, one), greater(two, three))
    }

    // Marks what command number `n`, of a queue, did.
    pub(crate) fn mark(
        &mut self,
        alloc: Global,
        queue: u32,
        n: u32,
        doing: &Doing,
        cells: &Cells,
    ) -> Result<(), NoMemory>
        requires number { n + 1 < 2 ^ 32 }
        requires cells { length cells.now ≤ 2 ^ 32 }
        requires below { AllLow (length cells.now) (n + 1) self.old }
        ensures { OnOk result ((q : QueueCommands) → queue ≡ queue_of q n
            → IsDoing q.commands cells.now n doing.now → AreUsed q cells.now n self.old
            → AreUsed q cells.now (suc n) self.new) }
    {
        let zero = self.zero.take();
        self.zero = marked(zero, alloc, is_queue(queue, 0), n, doing, cells)?;
        let one = self.one.take();
        self.one = marked(one, alloc, is_queue(queue, 1), n, doing, cells)?;
        let two = self.two.take();
        self.two = marked(two, alloc, is_queue(queue, 2), n, doing, cells)?;
        let three = self.three.take();
        self.three = marked(three, alloc, is_queue(queue, 3), n, doing, cells)?;
        Ok(())
    }
}

// One more than the last command of a queue that wrote there, not covered.
fn uncovered_in(lanes: &Option<Lanes>, limits: PerWay, start: usize, end: usize) -> u32
    requires { AreRoomy end lanes.now }
    ensures { (q : QueueCommands) (from : ℕ) (starts : List ℕ) (n : ℕ) (accessed : AnAccessed)
        → IsUsed q from starts n lanes.now → AreCoveredBelow (from_queue q from) n accessed limits
        → IsLast (AnyUncovered (from_queue q from) starts accessed.thing n accessed.stage
        accessed.access start end) n result }
{
    match lanes {
        Some(lanes) => lanes.last_uncovered(limits, start, end),
        None => 0,
    }
}

// One more than the last command of a queue that read there, not ordered.
fn unordered_in(lanes: &Option<Lanes>, limits: PerStage, start: usize, end: usize) -> u32
    requires { AreRoomy end lanes.now }
    ensures { (q : QueueCommands) (from : ℕ) (starts : List ℕ) (n : ℕ) (to : AStage)
        → IsUsed q from starts n lanes.now
        → AreOrdered (from_queue q from) n to (stage_limits limits)
        → IsLast (AnyUnordered (from_queue q from) starts n to start end) n result }
{
    match lanes {
        Some(lanes) => lanes.last_unordered(stage_limits(limits), start, end),
        None => 0,
    }
}

// Numbers of stages, as lanes take them.
fn stage_limits(numbers: PerStage) -> ray_hazards::PerStage
    ensures { result ≡ stage_limits numbers }
{
    ray_hazards::PerStage {
        transfer: numbers.transfer,
        build: numbers.build,
        structure_copy: numbers.structure_copy,
        compute: numbers.compute,
    }
}

// The lanes of a queue once command number `n` is done. `own` says that it is of this queue.
fn marked(
    lanes: Option<Lanes>,
    alloc: Global,
    own: bool,
    n: u32,
    doing: &Doing,
    cells: &Cells,
) -> Result<Option<Lanes>, NoMemory>
    requires number { n + 1 < 2 ^ 32 }
    requires cells { length cells.now ≤ 2 ^ 32 }
    requires below { AreLow (length cells.now) (n + 1) lanes }
    ensures { IfOk result (λ after. (q : QueueCommands) (from : ℕ) → own ≡ (queue_of q n == from)
        → IsDoing q.commands cells.now n doing.now → IsUsed q from cells.now n lanes
        → IsUsed q from cells.now (suc n) after) }
{
    if own {
        marked_own(lanes, alloc, n, doing, cells)
    } else {
        Ok(lanes)
    }
}

// The same where it is of this queue: lanes are made where it does anything.
fn marked_own(
    lanes: Option<Lanes>,
    alloc: Global,
    n: u32,
    doing: &Doing,
    cells: &Cells,
) -> Result<Option<Lanes>, NoMemory>
    requires number { n + 1 < 2 ^ 32 }
    requires cells { length cells.now ≤ 2 ^ 32 }
    requires below { AreLow (length cells.now) (n + 1) lanes }
    ensures { IfOk result (λ after. (q : QueueCommands) (from : ℕ) → (queue_of q n == from) ≡ true
        → IsDoing q.commands cells.now n doing.now → IsUsed q from cells.now n lanes
        → IsUsed q from cells.now (suc n) after) }
{
    match doing.stage {
        Some(stage) => {
            let mut used = lanes_or_new(lanes, cells);
            used.mark(alloc, n, Some(stage), &doing.touches, cells)?;
            Ok(Some(used))
        }
        None => Ok(lanes),
    }
}

// The lanes of a queue, made where there are none.
fn lanes_or_new(lanes: Option<Lanes>, cells: &Cells) -> Lanes
    requires { length cells.now ≤ 2 ^ 32 }
    ensures below { (n : ℕ) → AreLow (length cells.now) (n + 1) lanes
        → LanesBelow (length cells.now) (n + 1) result }
    ensures used { (q : QueueCommands) (from n : ℕ) → IsUsed q from cells.now n lanes
        → AreLanes (from_queue q from) cells.now n result }
{
    match lanes {
        Some(lanes) => lanes,
        None => Lanes::new(cells.count()),
    }
}

// Whether a queue is this one.
fn is_queue(queue: u32, number: u32) -> bool
    ensures { result ≡ (queue == number) }
{
    queue == number
}
