ghost use Rattle.std.specs.Prelude.{◌≡◌};
ghost use Rattle.ray_queues.specs.Kinds.{kind_named, queue_named, stage_named};

use ray_rules::{Kind, Stage};

/// One of the four queues.
#[derive(Clone, Copy)]
pub enum Queue {
    /// Queue 0.
    Zero,
    /// Queue 1.
    One,
    /// Queue 2.
    Two,
    /// Queue 3.
    Three,
}

/// A stage of the device.
#[derive(Clone, Copy)]
pub enum DeviceStage {
    /// Updates, fills and copies of buffers.
    Transfer,
    /// Builds and properties of structures.
    Build,
    /// Copies and serializations of structures.
    StructureCopy,
    /// Traces.
    Compute,
}

/// A kind of commands, of which those below one number are ordered before a command.
#[derive(Clone, Copy)]
pub enum WaveKind {
    /// Device commands of a queue at a stage.
    Work(Queue, DeviceStage),
    /// Barriers.
    Barrier,
    /// Commands that the host does.
    Host,
}

// The kind of a command, by what it is and its queue.
pub(crate) fn kind_named(kind: Kind, queue: u32) -> WaveKind
    ensures { result ≡ kind_named kind queue }
{
    match kind {
        Kind::Device(stage) => WaveKind::Work(queue_named(queue), stage_named(stage)),
        Kind::Barrier => WaveKind::Barrier,
        Kind::HostCommand => WaveKind::Host,
    }
}

// A queue by its number.
fn queue_named(queue: u32) -> Queue
    ensures { result ≡ queue_named queue }
{
    if queue == 0 {
        Queue::Zero
    } else if queue == 1 {
        Queue::One
    } else if queue == 2 {
        Queue::Two
    } else {
        Queue::Three
    }
}

// A stage of a device command.
fn stage_named(stage: Stage) -> DeviceStage
    ensures { result ≡ stage_named stage }
{
    match stage {
        Stage::Transfer => DeviceStage::Transfer,
        Stage::Build => DeviceStage::Build,
        Stage::StructureCopy => DeviceStage::StructureCopy,
        Stage::Compute | Stage::Host => DeviceStage::Compute,
    }
}
