ghost use Rattle.std.specs.Prelude.{◌≡◌, ◌==◌, ◌<◌, ℕ, List, None, OnOk, suc};
ghost use Rattle.ray_chains.specs.Queues.{Barrier, TimelinePoint, Wait};
ghost use Rattle.ray_chains.specs.Tables.{scopes_of};
ghost use Rattle.ray_hazards.specs.Carrying.{IsMet};
ghost use Rattle.ray_queues.specs.Events.{event_at};
ghost use Rattle.ray_submits.specs.Submits.{QueueCommands};
ghost use Rattle.ray_queue_check.specs.Arriving.{AreMet, IsArriving, IsBegun};
ghost use Rattle.ray_queue_check.specs.Arriving.{IsLimitedOn, IsPassed, number_to, several_queues};
ghost use Rattle.ray_queue_check.specs.Numbers.{AreSources};

use crate::passed::Passed;
use crate::per_source::{PerSource, own_or};
use ray_chains::{AccessType, MemoryBarrier, Stage};
use ray_hazards::{Carried, Coverage};
use ray_queues::PerQueue;
use std::alloc::{AllocError as NoMemory, Global};

/// How far what each queue wrote is covered at a queue: what it wrote itself in each way, and what
/// each other one wrote.
#[derive(Drop)]
pub(crate) struct Arriving {
    pub(crate) own: Coverage,
    pub(crate) zero: Carried,
    pub(crate) one: Carried,
    pub(crate) two: Carried,
    pub(crate) three: Carried,
}

impl Arriving {
    // Where a recording begins.
    pub(crate) fn new(alloc: Global) -> Arriving
        ensures { (q : QueueCommands) (queue : ℕ) → IsArriving q queue 0 result }
    {
        Arriving {
            own: Coverage::new(alloc),
            zero: Carried::new(alloc),
            one: Carried::new(alloc),
            two: Carried::new(alloc),
            three: Carried::new(alloc),
        }
    }

    // Below which numbers what each queue wrote to a thing is covered to an access at a stage of
    // this queue.
    pub(crate) fn limits(
        &self,
        queue: u32,
        thing: Option<u32>,
        stage: Stage,
        access: AccessType,
    ) -> PerSource
        ensures { (q : QueueCommands) (n : ℕ) → IsArriving q queue n self.now
            → AreSources (number_to q thing n queue stage access) result }
    {
        let chains = self.own.chains();
        let own = self.own.limits(thing, stage, access);
        let zero = self.zero.limit(&chains, thing, stage, access);
        let one = self.one.limit(&chains, thing, stage, access);
        let two = self.two.limit(&chains, thing, stage, access);
        let three = self.three.limit(&chains, thing, stage, access);
        PerSource {
            zero: own_or(is_queue(queue, 0), own, zero),
            one: own_or(is_queue(queue, 1), own, one),
            two: own_or(is_queue(queue, 2), own, two),
            three: own_or(is_queue(queue, 3), own, three),
        }
    }

    // Goes on past a barrier of this queue that isn't limited, command number `n`.
    fn hand_on(&mut self, n: u32, barrier: &MemoryBarrier)
        ensures { (q : QueueCommands) (at : ℕ)
            → event_at q n ≡ Barrier at (scopes_of barrier.now) None
            → IsArriving q at n self.old → IsArriving q at (suc n) self.new }
    {
        self.own.hand_on(n, barrier);
        self.zero.hand_on(false, n, barrier);
        self.one.hand_on(false, n, barrier);
        self.two.hand_on(false, n, barrier);
        self.three.hand_on(false, n, barrier);
    }

    // Goes on past a barrier of this queue that is limited to the buffers of these makers, command
    // number `n`.
    fn limit_to(
        &mut self,
        alloc: Global,
        n: u32,
        barrier: &MemoryBarrier,
        makers: &[u32],
    ) -> Result<(), NoMemory>
        ensures { OnOk result ((q : QueueCommands) (at : ℕ)
            → IsLimitedOn q n at barrier.now makers.now → IsArriving q at n self.old
            → IsArriving q at (suc n) self.new) }
    {
        let chains = self.own.chains();
        self.zero
            .limit_to(alloc, false, n, barrier, makers, &chains)?;
        self.one
            .limit_to(alloc, false, n, barrier, makers, &chains)?;
        self.two
            .limit_to(alloc, false, n, barrier, makers, &chains)?;
        self.three
            .limit_to(alloc, false, n, barrier, makers, &chains)?;
        self.own.limit_to(alloc, n, barrier, makers)
    }

    // Goes on past the begin of a submission to this queue, command number `n`, where these numbers
    // are carried by what meets its waits, `own` for this queue.
    fn begin(&mut self, n: u32, own: u32, numbers: &PerQueue)
        ensures { (q : QueueCommands) (at : ℕ) → IsBegun q n at numbers.now
            → ((waits : List TimelinePoint) → AreMet q n waits numbers.now
            → IsMet (several_queues q) at n waits own)
            → IsArriving q at n self.old → IsArriving q at (suc n) self.new }
    {
        self.own.begin(n, own);
        self.zero.begin(numbers.zero.transfer);
        self.one.begin(numbers.one.transfer);
        self.two.begin(numbers.two.transfer);
        self.three.begin(numbers.three.transfer);
    }

    // Goes on past a `wait` of the host, command number `n`.
    fn wait(&mut self, n: u32)
        ensures { (q : QueueCommands) (at : ℕ) → event_at q n ≡ Wait
            → IsArriving q at n self.old → IsArriving q at (suc n) self.new }
    {
        self.own.wait(n);
        self.zero.wait(n);
        self.one.wait(n);
        self.two.wait(n);
        self.three.wait(n);
    }

    // Goes on past command number `n`, at the queue `at`.
    pub(crate) fn pass(
        &mut self,
        alloc: Global,
        at: u32,
        n: u32,
        event: &Passed,
    ) -> Result<(), NoMemory>
        ensures { OnOk result (at < 4 → (q : QueueCommands) → IsPassed q n event.now
            → IsArriving q at n self.old → IsArriving q at (suc n) self.new) }
    {
        match event {
            Passed::Barrier(queue, barrier) => {
                self.hand_on_at(*queue, at, n, barrier);
                Ok(())
            }
            Passed::Limited(queue, barrier, makers) => {
                self.limit_to_at(alloc, *queue, at, n, barrier, makers.as_slice())
            }
            Passed::Begin(queue, numbers) => {
                self.begin_at(*queue, at, n, numbers);
                Ok(())
            }
            Passed::Wait => {
                self.wait(n);
                Ok(())
            }
            Passed::Other => Ok(()),
        }
    }

    // The same past a barrier of a queue that isn't limited.
    fn hand_on_at(&mut self, queue: u32, at: u32, n: u32, barrier: &MemoryBarrier)
        ensures { (q : QueueCommands) → event_at q n ≡ Barrier queue (scopes_of barrier.now) None
            → IsArriving q at n self.old → IsArriving q at (suc n) self.new }
    {
        if queue == at {
            self.hand_on(n, barrier);
        }
    }

    // The same past a barrier of a queue that is limited to the buffers of these makers.
    fn limit_to_at(
        &mut self,
        alloc: Global,
        queue: u32,
        at: u32,
        n: u32,
        barrier: &MemoryBarrier,
        makers: &[u32],
    ) -> Result<(), NoMemory>
        ensures { OnOk result ((q : QueueCommands) → IsLimitedOn q n queue barrier.now makers.now
            → IsArriving q at n self.old → IsArriving q at (suc n) self.new) }
    {
        if queue == at {
            return self.limit_to(alloc, n, barrier, makers);
        }
        Ok(())
    }

    // The same past the begin of a submission to a queue.
    fn begin_at(&mut self, queue: u32, at: u32, n: u32, numbers: &PerQueue)
        ensures { at < 4 → (q : QueueCommands) → IsBegun q n queue numbers.now
            → IsArriving q at n self.old → IsArriving q at (suc n) self.new }
    {
        if queue == at {
            self.begin(n, number_of(numbers, at), numbers);
        }
    }
}

// The number of a queue, which is from 0 to 3: one for all stages.
fn number_of(numbers: &PerQueue, queue: u32) -> u32
    ensures { queue < 4 → (q : QueueCommands) (n : ℕ) (waits : List TimelinePoint)
        → AreMet q n waits numbers.now → IsMet (several_queues q) queue n waits result }
{
    match queue {
        0 => numbers.zero.transfer,
        1 => numbers.one.transfer,
        2 => numbers.two.transfer,
        _ => numbers.three.transfer,
    }
}

// Whether a queue is this one.
fn is_queue(queue: u32, number: u32) -> bool
    ensures { result ≡ (queue == number) }
{
    queue == number
}
