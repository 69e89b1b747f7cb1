ghost use Rattle.std.specs.Prelude.{◌≡◌};
ghost use Rattle.ray_sync.specs.Kinds.{kind_in};

use ray_cmd::Command;
use ray_rules::Stage;

/// The kind of a command, as far as order goes.
#[derive(Clone, Copy, Debug, PartialEq, Eq)]
pub enum Kind {
    /// A device command at the stage of transfers.
    Transfer,
    /// A device command at the stage of builds.
    Build,
    /// A device command at the stage of copies of structures.
    StructureCopy,
    /// A device command at the stage of traces.
    Compute,
    /// A barrier.
    Barrier,
    /// A host command.
    Host,
}

// The kind of a command.
pub(crate) fn kind_of(command: &Command) -> Kind
    ensures { result ≡ kind_in command.now }
{
    match ray_rules::kind_of(command) {
        ray_rules::Kind::Device(Stage::Transfer) => Kind::Transfer,
        ray_rules::Kind::Device(Stage::Build) => Kind::Build,
        ray_rules::Kind::Device(Stage::StructureCopy) => Kind::StructureCopy,
        ray_rules::Kind::Device(Stage::Compute) => Kind::Compute,
        ray_rules::Kind::Device(Stage::Host) => Kind::Host,
        ray_rules::Kind::Barrier => Kind::Barrier,
        ray_rules::Kind::HostCommand => Kind::Host,
    }
}
