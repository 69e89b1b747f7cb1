ghost use Rattle.std.specs.Prelude.{◌≡◌, ◌<◌, ℕ, OnOk, suc};
ghost use Rattle.ray_submits.specs.Submits.{QueueCommands, queue_of};
ghost use Rattle.ray_queue_check.specs.Arriving.{AreArriving, IsPassed, number_shown, number_to};
ghost use Rattle.ray_queue_check.specs.Lanes.{AreAllCovered};
ghost use Rattle.ray_queue_check.specs.Numbers.{AreSources};

use crate::arriving::Arriving;
use crate::passed::Passed;
use crate::per_source::PerSource;
use ray_chains::{AccessType, Stage};
use ray_hazards::Accessed;
use ray_sync::{chain_access, chain_stage};
use std::alloc::{AllocError as NoMemory, Global};

/// How far what each queue wrote is covered at each queue.
#[derive(Drop)]
pub(crate) struct Everywhere {
    pub(crate) zero: Arriving,
    pub(crate) one: Arriving,
    pub(crate) two: Arriving,
    pub(crate) three: Arriving,
}

impl Everywhere {
    // Where a recording begins.
    pub(crate) fn new(alloc: Global) -> Everywhere
        ensures { (q : QueueCommands) → AreArriving q 0 result }
    {
        Everywhere {
            zero: Arriving::new(alloc),
            one: Arriving::new(alloc),
            two: Arriving::new(alloc),
            three: Arriving::new(alloc),
        }
    }

    // Goes on past command number `n`.
    pub(crate) fn pass(&mut self, alloc: Global, n: u32, event: &Passed) -> Result<(), NoMemory>
        ensures { OnOk result ((q : QueueCommands) → IsPassed q n event.now
            → AreArriving q n self.old → AreArriving q (suc n) self.new) }
    {
        self.zero.pass(alloc, 0, n, event)?;
        self.one.pass(alloc, 1, n, event)?;
        self.two.pass(alloc, 2, n, event)?;
        self.three.pass(alloc, 3, n, event)
    }

    // Below which numbers what each queue wrote is covered to an access by a command of a queue,
    // which is from 0 to 3: at its own queue, and where the host reads at any.
    pub(crate) fn limits(&self, queue: u32, accessed: Accessed) -> PerSource
        ensures { queue < 4 → (q : QueueCommands) (n : ℕ) → queue ≡ queue_of q n
            → AreArriving q n self.now → AreAllCovered q n accessed result }
    {
        let stage = chain_stage(accessed.stage);
        let access = chain_access(accessed.access);
        match accessed.stage {
            ray_rules::Stage::Host => self.shown(accessed.thing, stage, access),
            _ => self.at(queue, accessed.thing, stage, access),
        }
    }

    // Below which numbers what each queue wrote to a thing is covered at a queue, from 0 to 3.
    fn at(&self, queue: u32, thing: Option<u32>, stage: Stage, access: AccessType) -> PerSource
        ensures { queue < 4 → (q : QueueCommands) (n : ℕ) → AreArriving q n self.now
            → AreSources (number_to q thing n queue stage access) result }
    {
        match queue {
            0 => self.zero.limits(0, thing, stage, access),
            1 => self.one.limits(1, thing, stage, access),
            2 => self.two.limits(2, thing, stage, access),
            _ => self.three.limits(3, thing, stage, access),
        }
    }

    // The same at any queue.
    fn shown(&self, thing: Option<u32>, stage: Stage, access: AccessType) -> PerSource
        ensures { (q : QueueCommands) (n : ℕ) → AreArriving q n self.now
            → AreSources (number_shown q thing n stage access) result }
    {
        let zero = self.zero.limits(0, thing, stage, access);
        let one = self.one.limits(1, thing, stage, access);
        let two = self.two.limits(2, thing, stage, access);
        let three = self.three.limits(3, thing, stage, access);
        zero.greater(one).greater(two.greater(three))
    }
}
