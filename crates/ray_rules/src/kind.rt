ghost use Rattle.std.specs.Prelude.{◌≡◌};
ghost use Rattle.ray_rules.specs.Kinds.{kind_of};

use crate::stage::Stage;
use ray_cmd::Command;

/// What a command is, as far as stages and order go.
#[derive(Clone, Copy, Debug, PartialEq, Eq)]
pub enum Kind {
    /// A device command, at its stage.
    Device(Stage),
    /// A barrier, before which no device command is ordered.
    Barrier,
    /// A command that the host does.
    HostCommand,
}

/// The kind of a command.
#[tactic(auto, unfolding(crate::specs::Kinds::kind_of))]
pub fn kind_of(command: &Command) -> Kind
    ensures { result ≡ kind_of command.now }
{
    match command {
        Command::Update { .. } | Command::Fill { .. } | Command::Copy { .. } => {
            Kind::Device(Stage::Transfer)
        }
        Command::Build { .. } | Command::Property { .. } => Kind::Device(Stage::Build),
        Command::CopyStructure { .. } | Command::Serialize { .. } | Command::Deserialize { .. } =>
            Kind::Device(Stage::StructureCopy),
        Command::Trace { .. } => Kind::Device(Stage::Compute),
        Command::Barrier { .. } => Kind::Barrier,
        _ => Kind::HostCommand,
    }
}
