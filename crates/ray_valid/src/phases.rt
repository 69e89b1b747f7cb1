ghost use Rattle.std.specs.Prelude.{◌≡◌};
ghost use Rattle.ray_rules.specs.Phases.{is_same_phase, phase_needed, v28, v28_at_end, v29};

use crate::place::whole;
use ray_cmd::{Command, Place};
use ray_rules::Phase;
use ray_status::Status;

// V28: the state of the command buffer is wrong.
pub(crate) fn v28(status: &Status, command: &Command) -> Option<Place>
    ensures { result ≡ v28 status.now command.now }
{
    whole(!is_same_phase(phase_needed(command), status.phase()))
}

// V28 at the end of a recording, which needs an idle command buffer.
pub(crate) fn v28_at_end(status: &Status) -> Option<Place>
    ensures { result ≡ v28_at_end status.now }
{
    whole(!is_same_phase(Phase::Idle, status.phase()))
}

// Whether two states are the same.
fn is_same_phase(one: Phase, other: Phase) -> bool
    ensures { result ≡ is_same_phase one other }
{
    one == other
}

// The state of the command buffer that a command needs.
#[tactic(auto, unfolding(ray_rules::specs::Phases::phase_needed))]
fn phase_needed(command: &Command) -> Phase
    ensures { result ≡ phase_needed command.now }
{
    match command {
        Command::Buffer { .. }
        | Command::Structure { .. }
        | Command::Destroy { .. }
        | Command::Sizes { .. }
        | Command::Begin
        | Command::Wait
        | Command::Read { .. } => Phase::Idle,
        Command::Submit => Phase::Ended,
        Command::End
        | Command::Update { .. }
        | Command::Fill { .. }
        | Command::Copy { .. }
        | Command::Build { .. }
        | Command::CopyStructure { .. }
        | Command::Serialize { .. }
        | Command::Deserialize { .. }
        | Command::Property { .. }
        | Command::Barrier { .. }
        | Command::Trace { .. } => Phase::Recording,
    }
}

// V29: `read` with a `submit` after the last `wait`.
#[tactic(auto, unfolding(ray_rules::specs::Phases::v29))]
pub(crate) fn v29(status: &Status, command: &Command) -> Option<Place>
    ensures { result ≡ v29 status.now command.now }
{
    match command {
        Command::Read { .. } => whole(status.pending()),
        _ => None,
    }
}
