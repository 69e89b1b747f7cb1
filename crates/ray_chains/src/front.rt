ghost use Rattle.std.specs.Prelude.{◌≡◌, max};
ghost use Rattle.ray_chains.specs.Overriding.{front_above, front_max};
ghost use Rattle.ray_chains.specs.Passing.{FrontBegins, FrontPassesBarrier};
ghost use Rattle.ray_chains.specs.Passing.{FrontPassesBegin, FrontPassesWait, TellsFront};
ghost use Rattle.ray_chains.specs.Tables.{above, front_at, front_barrier, held, met, no_front};
ghost use Rattle.ray_chains.specs.Tables.{on_device, raised, taken_at};

use crate::masks::{MemoryBarrier, StageMask};
use crate::stage::Stage;

/// A number for each stage: what was done below it has reached the stage, and nothing else of it.
#[derive(Clone, Copy, Debug, PartialEq, Eq)]
pub struct Front {
    /// The number at the stage of transfers.
    pub transfer: u32,
    /// The number at the stage of builds.
    pub build: u32,
    /// The number at the stage of copies of structures.
    pub structure_copy: u32,
    /// The number at the stage of traces.
    pub compute: u32,
    /// The number at the host.
    pub host: u32,
}

impl Front {
    /// Nothing has reached any stage.
    pub fn none() -> Front
        ensures value { result ≡ no_front }
        ensures first { FrontBegins result }
    {
        Front {
            transfer: 0,
            build: 0,
            structure_copy: 0,
            compute: 0,
            host: 0,
        }
    }

    /// The number at a stage.
    pub fn at(self, stage: Stage) -> u32
        ensures value { result ≡ front_at self stage }
        ensures tells { TellsFront self stage result }
    {
        self.number(stage)
    }

    // The same, as a value.
    fn number(self, stage: Stage) -> u32
        ensures { result ≡ front_at self stage }
    {
        match stage {
            Stage::Transfer => self.transfer,
            Stage::Build => self.build,
            Stage::StructureCopy => self.structure_copy,
            Stage::Compute => self.compute,
            Stage::Host => self.host,
        }
    }

    // The greatest number at one of these stages, 0 where there is none.
    fn met(self, stages: StageMask) -> u32
        ensures { result ≡ met stages self }
    {
        let build = held(stages, Stage::Build, self.build);
        let structure_copy = held(stages, Stage::StructureCopy, self.structure_copy);
        let compute = held(stages, Stage::Compute, self.compute);
        let host = held(stages, Stage::Host, self.host);
        greater(
            held(stages, Stage::Transfer, self.transfer),
            greater(build, greater(structure_copy, greater(compute, host))),
        )
    }

    // Below which number a barrier, command number `n`, takes up what was done: all where it takes
    // it up directly, and else what has reached one of its source stages.
    pub(crate) fn taken_up(self, direct: bool, n: u32, stages: StageMask) -> u32
        ensures { result ≡ taken_at direct n stages self }
    {
        if direct { n } else { self.met(stages) }
    }

    // The same once what was done below a number has reached these stages.
    pub(crate) fn raised(self, stages: StageMask, number: u32) -> Front
        ensures { result ≡ raised stages number self }
    {
        Front {
            transfer: greater(self.transfer, held(stages, Stage::Transfer, number)),
            build: greater(self.build, held(stages, Stage::Build, number)),
            structure_copy: greater(
                self.structure_copy,
                held(stages, Stage::StructureCopy, number),
            ),
            compute: greater(self.compute, held(stages, Stage::Compute, number)),
            host: greater(self.host, held(stages, Stage::Host, number)),
        }
    }

    /// The same after a barrier of the queue that acts, command number `n`. `direct` says that it
    /// takes up directly what the source did.
    pub fn barrier(self, direct: bool, n: u32, barrier: &MemoryBarrier) -> Front
        ensures next { FrontPassesBarrier direct n barrier.now self result }
    {
        self.handed(direct, n, barrier)
    }

    // The same after a barrier, as a value.
    fn handed(self, direct: bool, n: u32, barrier: &MemoryBarrier) -> Front
        ensures { result ≡ front_barrier direct n barrier.now self }
    {
        let number = self.taken_up(direct, n, barrier.src_stages);
        self.raised(barrier.dst_stages, number)
    }

    /// The same once what was done below a number has reached the stages of the device. After a
    /// `wait` of the host the number is its own, and after the begin of a submission the greatest
    /// of the fronts at the signals that meet its waits.
    pub fn on_device(self, number: u32) -> Front
        ensures wait { FrontPassesWait number self result }
        ensures begin { FrontPassesBegin number self result }
    {
        self.device(number)
    }

    // The same at the device, as a value.
    pub(crate) fn device(self, number: u32) -> Front
        ensures { result ≡ on_device number self }
    {
        Front {
            transfer: greater(self.transfer, number),
            build: greater(self.build, number),
            structure_copy: greater(self.structure_copy, number),
            compute: greater(self.compute, number),
            host: self.host,
        }
    }

    // At each stage the greater of two numbers.
    pub(crate) fn max(self, other: Front) -> Front
        ensures { result ≡ front_max self other }
    {
        Front {
            transfer: greater(self.transfer, other.transfer),
            build: greater(self.build, other.build),
            structure_copy: greater(self.structure_copy, other.structure_copy),
            compute: greater(self.compute, other.compute),
            host: greater(self.host, other.host),
        }
    }

    // A number at the stages to which this chain came later than number t, 0 at the others.
    pub(crate) fn above(self, t: u32, number: u32) -> Front
        ensures { result ≡ front_above t number self }
    {
        Front {
            transfer: above(t, self.transfer, number),
            build: above(t, self.build, number),
            structure_copy: above(t, self.structure_copy, number),
            compute: above(t, self.compute, number),
            host: above(t, self.host, number),
        }
    }
}

// The number where the stages have this one, and else 0.
fn held(stages: StageMask, stage: Stage, number: u32) -> u32
    ensures { result ≡ held stages stage number }
{
    if stages.has(stage) { number } else { 0 }
}

// A number where a chain came later than number t, and else 0.
fn above(t: u32, chain: u32, number: u32) -> u32
    ensures { result ≡ above t chain number }
{
    if t < chain { number } else { 0 }
}

// The greater of two numbers.
fn greater(a: u32, b: u32) -> u32
    ensures { result ≡ max a b }
{
    if a < b { b } else { a }
}
