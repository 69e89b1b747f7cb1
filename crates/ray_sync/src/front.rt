ghost use Rattle.std.specs.Prelude.{◌≡◌};
ghost use Rattle.ray_sync.specs.Fronts.{front_after, front_at, held, met, raised, no_front, taken_up, waited};

use crate::per_kind::greater;
use crate::sets::holds_stage;
use ray_cmd::{Command, Stages};
use ray_rules::Stage;

/// How far what the commands of one stage did has been handed on: for each stage a number. What the
/// commands below it did has reached that stage, and of no other.
#[derive(Clone, Copy, Debug, PartialEq, Eq)]
pub struct Front {
    /// The number at the stage of transfers.
    pub transfer: u32,
    /// The number at the stage of builds.
    pub build: u32,
    /// The number at the stage of copies of structures.
    pub structure_copy: u32,
    /// The number at the stage of traces.
    pub compute: u32,
    /// The number at the host.
    pub host: u32,
}

impl Front {
    // Nothing has been handed on.
    pub(crate) fn none() -> Front
        ensures { result ≡ no_front }
    {
        Front {
            transfer: 0,
            build: 0,
            structure_copy: 0,
            compute: 0,
            host: 0,
        }
    }

    // The number at a stage.
    pub(crate) fn at(self, stage: Stage) -> u32
        ensures { result ≡ front_at self stage }
    {
        match stage {
            Stage::Transfer => self.transfer,
            Stage::Build => self.build,
            Stage::StructureCopy => self.structure_copy,
            Stage::Compute => self.compute,
            Stage::Host => self.host,
        }
    }

    // The greatest number at one of these stages, 0 where there is none.
    fn met(self, stages: Stages) -> u32
        ensures { result ≡ met stages self }
    {
        let build = held(stages, Stage::Build, self.build);
        let structure_copy = held(stages, Stage::StructureCopy, self.structure_copy);
        let compute = held(stages, Stage::Compute, self.compute);
        let host = held(stages, Stage::Host, self.host);
        greater(
            held(stages, Stage::Transfer, self.transfer),
            greater(build, greater(structure_copy, greater(compute, host))),
        )
    }

    // The same once what the commands below a number did has reached these stages.
    pub(crate) fn raised(self, stages: Stages, number: u32) -> Front
        ensures { result ≡ raised stages number self }
    {
        Front {
            transfer: greater(self.transfer, held(stages, Stage::Transfer, number)),
            build: greater(self.build, held(stages, Stage::Build, number)),
            structure_copy: greater(
                self.structure_copy,
                held(stages, Stage::StructureCopy, number),
            ),
            compute: greater(self.compute, held(stages, Stage::Compute, number)),
            host: greater(self.host, held(stages, Stage::Host, number)),
        }
    }

    // The same after a `wait`, which is command number `n`.
    pub(crate) fn waited(self, n: u32) -> Front
        ensures { result ≡ waited n self }
    {
        Front {
            transfer: n,
            build: n,
            structure_copy: n,
            compute: n,
            host: self.host,
        }
    }

    // The same after one more command, number `n`, for what was done at a stage.
    pub(crate) fn after(self, stage: Stage, n: u32, command: &Command) -> Front
        ensures { result ≡ front_after stage n command.now self }
    {
        match command {
            Command::Barrier {
                src_stages,
                dst_stages,
                ..
            } => {
                let direct = holds_stage(*src_stages, stage);
                self.raised(*dst_stages, self.taken_up(direct, n, *src_stages))
            }
            Command::Wait => self.waited(n),
            _ => self,
        }
    }

    // Below which number a barrier, command number `n`, takes up what the commands did: all where
    // it takes it up directly, and else what has reached one of its source stages.
    pub(crate) fn taken_up(self, direct: bool, n: u32, stages: Stages) -> u32
        ensures { result ≡ taken_up direct n stages self }
    {
        if direct { n } else { self.met(stages) }
    }
}

// The number where the stages hold this one, and else 0.
fn held(stages: Stages, stage: Stage, number: u32) -> u32
    ensures { result ≡ held stages stage number }
{
    if holds_stage(stages, stage) {
        number
    } else {
        0
    }
}
