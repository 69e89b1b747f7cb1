ghost use Rattle.std.specs.Prelude.{◌≡◌, ◌&&◌, ◌==◌, List, ℕ, suc};
ghost use Rattle.ray_chains.specs.Queues.{Begin, TimelinePoint, Wait};
ghost use Rattle.ray_chains.specs.Tables.{has_stage};
ghost use Rattle.ray_queues.specs.Events.{event_at};
ghost use Rattle.ray_queues.specs.Sources.{ArePerStage, IsBarrierOn, IsSources, number_at};
ghost use Rattle.ray_queues.specs.Sources.{number_met};
ghost use Rattle.ray_submits.specs.Submits.{QueueCommands};

use crate::per_queue::PerStage;
use ray_chains::{Front, MemoryBarrier, Stage};

/// How far what the commands of a queue did, at each stage, has been handed on to the stages of a
/// queue.
#[derive(Clone, Copy)]
pub(crate) struct Sources {
    pub(crate) transfer: Front,
    pub(crate) build: Front,
    pub(crate) structure_copy: Front,
    pub(crate) compute: Front,
}

impl Sources {
    // Nothing has.
    pub(crate) fn none() -> Sources
        ensures { (q : QueueCommands) (from at : ℕ) → IsSources q from at 0 result }
    {
        Sources {
            transfer: Front::none(),
            build: Front::none(),
            structure_copy: Front::none(),
            compute: Front::none(),
        }
    }

    // The same after a barrier of the queue, command number `n`. `own` says that the commands are
    // of this queue.
    pub(crate) fn barrier(self, own: bool, n: u32, barrier: &MemoryBarrier) -> Sources
        ensures { (q : QueueCommands) (from at : ℕ) → IsBarrierOn q n at barrier.now → own
            ≡ (at == from)
            → IsSources q from at n self → IsSources q from at (suc n) result }
    {
        let transfers = direct(own, barrier, Stage::Transfer);
        let builds = direct(own, barrier, Stage::Build);
        let copies = direct(own, barrier, Stage::StructureCopy);
        let traces = direct(own, barrier, Stage::Compute);
        Sources {
            transfer: self.transfer.barrier(transfers, n, barrier),
            build: self.build.barrier(builds, n, barrier),
            structure_copy: self.structure_copy.barrier(copies, n, barrier),
            compute: self.compute.barrier(traces, n, barrier),
        }
    }

    // The same after the begin of a submission to the queue, command number n, where these numbers
    // are carried by the signals that meet its waits.
    pub(crate) fn begin(self, numbers: PerStage) -> Sources
        ensures { (q : QueueCommands) (from at n : ℕ) (waits : List TimelinePoint) → event_at q n
            ≡ Begin at waits
            → ArePerStage (number_met q n waits from) numbers
            → IsSources q from at n self → IsSources q from at (suc n) result }
    {
        Sources {
            transfer: self.transfer.on_device(numbers.transfer),
            build: self.build.on_device(numbers.build),
            structure_copy: self.structure_copy.on_device(numbers.structure_copy),
            compute: self.compute.on_device(numbers.compute),
        }
    }

    // The same after a `wait` of the host, command number `n`.
    pub(crate) fn wait(self, n: u32) -> Sources
        ensures { (q : QueueCommands) (from at : ℕ) → event_at q n ≡ Wait
            → IsSources q from at n self → IsSources q from at (suc n) result }
    {
        Sources {
            transfer: self.transfer.on_device(n),
            build: self.build.on_device(n),
            structure_copy: self.structure_copy.on_device(n),
            compute: self.compute.on_device(n),
        }
    }

    // Below which numbers it has reached a stage.
    pub(crate) fn at(self, to: Stage) -> PerStage
        ensures { (q : QueueCommands) (from at n : ℕ) → IsSources q from at n self
            → ArePerStage (number_at q at n to from) result }
    {
        PerStage {
            transfer: self.transfer.at(to),
            build: self.build.at(to),
            structure_copy: self.structure_copy.at(to),
            compute: self.compute.at(to),
        }
    }
}

// Whether a barrier takes up directly what the commands of a queue did at a stage.
fn direct(own: bool, barrier: &MemoryBarrier, stage: Stage) -> bool
    ensures { result ≡ (own && has_stage barrier.now.src_stages stage) }
{
    own && barrier.src_stages.has(stage)
}
