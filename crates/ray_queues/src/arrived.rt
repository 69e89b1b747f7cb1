ghost use Rattle.std.specs.Prelude.{◌≡◌, ◌==◌, ℕ, List, suc};
ghost use Rattle.ray_chains.specs.Queues.{Begin, TimelinePoint, Wait};
ghost use Rattle.ray_queues.specs.Events.{event_at};
ghost use Rattle.ray_queues.specs.Sources.{ArePerQueue, IsArrived, IsBarrierOn, IsBeginOn, IsEvent};
ghost use Rattle.ray_queues.specs.Sources.{number_at, number_met};
ghost use Rattle.ray_submits.specs.Submits.{QueueCommands};

use crate::per_queue::PerQueue;
use crate::sources::Sources;
use ray_chains::{MemoryBarrier, Stage};

/// How far what the commands of each queue did has been handed on to the stages of a queue.
#[derive(Clone, Copy)]
pub(crate) struct Arrived {
    pub(crate) zero: Sources,
    pub(crate) one: Sources,
    pub(crate) two: Sources,
    pub(crate) three: Sources,
}

/// What a command is to the order.
#[derive(Clone, Copy)]
pub(crate) enum QueueEvent {
    // A barrier of a queue.
    Barrier(u32, MemoryBarrier),
    // The begin of a submission to a queue, and the numbers that are carried by what meets its
    // waits.
    Begin(u32, PerQueue),
    // A `wait` of the host.
    Wait,
    // A command that hands nothing to any queue.
    Other,
}

impl Arrived {
    // Nothing has.
    pub(crate) fn none() -> Arrived
        ensures { (q : QueueCommands) (at : ℕ) → IsArrived q at 0 result }
    {
        Arrived {
            zero: Sources::none(),
            one: Sources::none(),
            two: Sources::none(),
            three: Sources::none(),
        }
    }

    // The same after a barrier of the queue `at`, command number `n`.
    fn barrier(self, at: u32, n: u32, barrier: &MemoryBarrier) -> Arrived
        ensures { (q : QueueCommands) → IsBarrierOn q n at barrier.now → IsArrived q at n self
            → IsArrived q at (suc n) result }
    {
        Arrived {
            zero: self.zero.barrier(is_queue(at, 0), n, barrier),
            one: self.one.barrier(is_queue(at, 1), n, barrier),
            two: self.two.barrier(is_queue(at, 2), n, barrier),
            three: self.three.barrier(is_queue(at, 3), n, barrier),
        }
    }

    // The same after the begin of a submission to the queue.
    fn begin(self, numbers: PerQueue) -> Arrived
        ensures { (q : QueueCommands) (at n : ℕ) → IsBeginOn q n at numbers → IsArrived q at n self
            → IsArrived q at (suc n) result }
    {
        Arrived {
            zero: self.zero.begin(numbers.zero),
            one: self.one.begin(numbers.one),
            two: self.two.begin(numbers.two),
            three: self.three.begin(numbers.three),
        }
    }

    // The same after a `wait` of the host, command number `n`.
    fn wait(self, n: u32) -> Arrived
        ensures { (q : QueueCommands) (at : ℕ) → event_at q n ≡ Wait → IsArrived q at n self
            → IsArrived q at (suc n) result }
    {
        Arrived {
            zero: self.zero.wait(n),
            one: self.one.wait(n),
            two: self.two.wait(n),
            three: self.three.wait(n),
        }
    }

    // The same of the queue `at` after command number `n`.
    pub(crate) fn passed(self, at: u32, n: u32, event: QueueEvent) -> Arrived
        ensures { (q : QueueCommands) → IsEvent q n event → IsArrived q at n self
            → IsArrived q at (suc n) result }
    {
        match event {
            QueueEvent::Barrier(queue, barrier) => self.barrier_of(queue, at, n, barrier),
            QueueEvent::Begin(queue, numbers) => self.begin_of(queue, at, numbers),
            QueueEvent::Wait => self.wait(n),
            QueueEvent::Other => self,
        }
    }

    // The same of the queue `at` after a barrier of a queue, command number `n`.
    fn barrier_of(self, queue: u32, at: u32, n: u32, barrier: MemoryBarrier) -> Arrived
        ensures { (q : QueueCommands) → IsBarrierOn q n queue barrier → IsArrived q at n self
            → IsArrived q at (suc n) result }
    {
        if queue == at {
            self.barrier(at, n, &barrier)
        } else {
            self
        }
    }

    // The same of the queue `at` after the begin of a submission to a queue.
    fn begin_of(self, queue: u32, at: u32, numbers: PerQueue) -> Arrived
        ensures { (q : QueueCommands) (n : ℕ) → IsBeginOn q n queue numbers → IsArrived q at n self
            → IsArrived q at (suc n) result }
    {
        if queue == at {
            self.begin(numbers)
        } else {
            self
        }
    }

    // Below which numbers it has reached a stage.
    pub(crate) fn at(self, to: Stage) -> PerQueue
        ensures { (q : QueueCommands) (at n : ℕ) → IsArrived q at n self
            → ArePerQueue (number_at q at n to) result }
    {
        PerQueue {
            zero: self.zero.at(to),
            one: self.one.at(to),
            two: self.two.at(to),
            three: self.three.at(to),
        }
    }
}

// Whether a queue is this one.
fn is_queue(queue: u32, number: u32) -> bool
    ensures { result ≡ (queue == number) }
{
    queue == number
}
