ghost use Rattle.std.specs.Prelude.{◌≡◌, ◌<◌, ◌≤◌};
ghost use Rattle.ray_rules.specs.Order.{kind_at, last_wait};
ghost use Rattle.ray_queues.specs.Kinds.{IsLimits, at_queue, at_stage, no_limits, number_of};
ghost use Rattle.ray_queues.specs.Kinds.{raised};
ghost use Rattle.ray_queues.specs.Kinds.{raised_queue, raised_stage};
ghost use Rattle.ray_queues.specs.Sources.{AreTargets};
ghost use Rattle.ray_submits.specs.Submits.{HaveQueues, QueueCommands, queue_of};

use crate::per_queue::{PerQueue, PerStage, greater};
use crate::targets::Targets;
use crate::wave_kind::{DeviceStage, Queue, WaveKind};
use ray_rules::Kind;
use ray_sync::chain_stage;

/// A number for each kind of commands.
#[derive(Clone, Copy)]
pub(crate) struct Limits {
    pub(crate) queues: PerQueue,
    pub(crate) barrier: u32,
    pub(crate) host: u32,
}

impl Limits {
    // 0 for each.
    pub(crate) fn none() -> Limits
        ensures { result ≡ no_limits }
    {
        Limits {
            queues: PerQueue::all(0),
            barrier: 0,
            host: 0,
        }
    }

    // The number of a kind.
    pub(crate) fn of(&self, kind: WaveKind) -> u32
        ensures { result ≡ number_of self.now kind }
    {
        match kind {
            WaveKind::Work(queue, stage) => stage_of(self.queue(queue), stage),
            WaveKind::Barrier => self.barrier,
            WaveKind::Host => self.host,
        }
    }

    // Those of a queue.
    fn queue(&self, queue: Queue) -> PerStage
        ensures { result ≡ at_queue self.now.queues queue }
    {
        match queue {
            Queue::Zero => self.queues.zero,
            Queue::One => self.queues.one,
            Queue::Two => self.queues.two,
            Queue::Three => self.queues.three,
        }
    }

    // The same with that of a kind at least this one.
    pub(crate) fn raised(self, kind: WaveKind, number: u32) -> Limits
        ensures { result ≡ raised self kind number }
    {
        match kind {
            WaveKind::Work(queue, stage) => Limits {
                queues: raised_queue(self.queues, queue, stage, number),
                ..self
            },
            WaveKind::Barrier => Limits {
                barrier: greater(self.barrier, number),
                ..self
            },
            WaveKind::Host => Limits {
                host: greater(self.host, number),
                ..self
            },
        }
    }
}

// The number of a stage.
fn stage_of(numbers: PerStage, stage: DeviceStage) -> u32
    ensures { result ≡ at_stage numbers stage }
{
    match stage {
        DeviceStage::Transfer => numbers.transfer,
        DeviceStage::Build => numbers.build,
        DeviceStage::StructureCopy => numbers.structure_copy,
        DeviceStage::Compute => numbers.compute,
    }
}

// The numbers with that of a stage of a queue at least this one.
fn raised_queue(numbers: PerQueue, queue: Queue, stage: DeviceStage, number: u32) -> PerQueue
    ensures { result ≡ raised_queue numbers queue stage number }
{
    match queue {
        Queue::Zero => PerQueue {
            zero: raised_stage(numbers.zero, stage, number),
            ..numbers
        },
        Queue::One => PerQueue {
            one: raised_stage(numbers.one, stage, number),
            ..numbers
        },
        Queue::Two => PerQueue {
            two: raised_stage(numbers.two, stage, number),
            ..numbers
        },
        Queue::Three => PerQueue {
            three: raised_stage(numbers.three, stage, number),
            ..numbers
        },
    }
}

// The numbers with that of a stage at least this one.
fn raised_stage(numbers: PerStage, stage: DeviceStage, number: u32) -> PerStage
    ensures { result ≡ raised_stage numbers stage number }
{
    match stage {
        DeviceStage::Transfer => PerStage {
            transfer: greater(numbers.transfer, number),
            ..numbers
        },
        DeviceStage::Build => PerStage {
            build: greater(numbers.build, number),
            ..numbers
        },
        DeviceStage::StructureCopy => PerStage {
            structure_copy: greater(numbers.structure_copy, number),
            ..numbers
        },
        DeviceStage::Compute => PerStage {
            compute: greater(numbers.compute, number),
            ..numbers
        },
    }
}

// Below which numbers the commands of each kind are ordered before command number `n`, of this kind
// and queue. `waited` is the last `wait` before it.
pub(crate) fn limits_of(targets: &Targets, n: u32, waited: u32, kind: Kind, queue: u32) -> Limits
    ensures { (q : QueueCommands) → HaveQueues q.submits → AreTargets q n targets.now
        → last_wait q.commands n ≡ waited → waited ≤ n → kind ≡ kind_at q.commands n → queue
        ≡ queue_of q n
        → IsLimits q n result }
{
    match kind {
        Kind::Device(stage) => Limits {
            queues: targets.of(queue).at(chain_stage(stage)),
            barrier: 0,
            host: n,
        },
        Kind::Barrier => Limits {
            queues: PerQueue::all(0),
            barrier: 0,
            host: n,
        },
        Kind::HostCommand => Limits {
            queues: PerQueue::all(waited),
            barrier: waited,
            host: n,
        },
    }
}
