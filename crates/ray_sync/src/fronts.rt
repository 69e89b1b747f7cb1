ghost use Rattle.std.specs.Prelude.{◌≡◌};
ghost use Rattle.ray_sync.specs.Kinds.{device_limits, fronts_after, limits_of, no_fronts, stage_limits};
ghost use Rattle.ray_sync.specs.Kinds.{waited_after};

use crate::front::Front;
use crate::kind::Kind;
use crate::per_kind::PerKind;
use ray_cmd::Command;
use ray_hazards::PerStage;
use ray_rules::Stage;

/// How far what device commands did has been handed on: a front for the commands of each stage, and
/// the last `wait`.
#[derive(Clone, Copy, Debug, PartialEq, Eq)]
pub struct Fronts {
    /// The front of transfers.
    pub transfer: Front,
    /// The front of builds.
    pub build: Front,
    /// The front of copies of structures.
    pub structure_copy: Front,
    /// The front of traces.
    pub compute: Front,
    /// The number of the last `wait`, 0 where there is none.
    pub waited: u32,
}

impl Fronts {
    // Where a recording begins.
    pub(crate) fn none() -> Fronts
        ensures { result ≡ no_fronts }
    {
        Fronts {
            transfer: Front::none(),
            build: Front::none(),
            structure_copy: Front::none(),
            compute: Front::none(),
            waited: 0,
        }
    }

    // The numbers below which commands of each kind are ordered before command number `j`, of a
    // kind.
    pub(crate) fn limits(self, j: u32, kind: Kind) -> PerKind
        ensures { result ≡ limits_of self j kind }
    {
        match kind {
            Kind::Transfer => self.device_limits(j, Stage::Transfer),
            Kind::Build => self.device_limits(j, Stage::Build),
            Kind::StructureCopy => self.device_limits(j, Stage::StructureCopy),
            Kind::Compute => self.device_limits(j, Stage::Compute),
            Kind::Barrier => PerKind {
                host: j,
                ..PerKind::none()
            },
            Kind::Host => PerKind {
                transfer: self.waited,
                build: self.waited,
                structure_copy: self.waited,
                compute: self.waited,
                barrier: self.waited,
                host: j,
            },
        }
    }

    // The same for a device command of a stage.
    pub(crate) fn device_limits(self, j: u32, stage: Stage) -> PerKind
        ensures { result ≡ device_limits self j stage }
    {
        PerKind {
            transfer: self.transfer.at(stage),
            build: self.build.at(stage),
            structure_copy: self.structure_copy.at(stage),
            compute: self.compute.at(stage),
            barrier: 0,
            host: j,
        }
    }

    // The numbers below which commands of each stage are ordered before a stage.
    pub(crate) fn stage_limits(self, stage: Stage) -> PerStage
        ensures { result ≡ stage_limits self stage }
    {
        PerStage {
            transfer: self.transfer.at(stage),
            build: self.build.at(stage),
            structure_copy: self.structure_copy.at(stage),
            compute: self.compute.at(stage),
        }
    }

    // How far it has been handed on after one more command, number `n`.
    pub(crate) fn after(self, n: u32, command: &Command) -> Fronts
        ensures { result ≡ fronts_after n command.now self }
    {
        Fronts {
            transfer: self.transfer.after(Stage::Transfer, n, command),
            build: self.build.after(Stage::Build, n, command),
            structure_copy: self.structure_copy.after(Stage::StructureCopy, n, command),
            compute: self.compute.after(Stage::Compute, n, command),
            waited: last_wait(self.waited, n, command),
        }
    }
}

// The number of the last `wait` once command number `n` is done.
fn last_wait(waited: u32, n: u32, command: &Command) -> u32
    ensures { result ≡ waited_after n command.now waited }
{
    match command {
        Command::Wait => n,
        _ => waited,
    }
}
