ghost use Rattle.std.specs.Prelude.{◌≡◌, IfSome};
ghost use Rattle.ray_cmd.specs.declared.rule.Rule.TheVariants.{V};
ghost use Rattle.ray_rules.specs.Phases.{is_same_phase, phase_needed};
ghost use Rattle.ray_grounds.specs.Facts.{IsFact};

use crate::fact::Fact;
use ray_causes::{Member, Name};
use ray_cmd::Command;
use ray_rules::Phase;
use ray_status::Status;

// That the command buffer is in another state than a command needs, which its `op` tells.
pub(crate) fn wrong_phase(status: &Status, command: &Command, member: Member) -> Option<Fact>
    ensures { IfSome result (λ fact. IsFact status.now command.now (V 28) fact) }
{
    match member {
        Member::Own(Name::Op) => wrong_here(status, command),
        _ => None,
    }
}

// The same of the command.
fn wrong_here(status: &Status, command: &Command) -> Option<Fact>
    ensures { IfSome result (λ fact. IsFact status.now command.now (V 28) fact) }
{
    let needed = phase_needed(command);
    let found = status.phase();
    if is_same_phase(needed, found) {
        None
    } else {
        Some(Fact::WrongPhase(needed, found))
    }
}

// Whether two states are the same.
pub(crate) fn is_same_phase(one: Phase, other: Phase) -> bool
    ensures { result ≡ is_same_phase one other }
{
    one == other
}

// The state of the command buffer that a command needs.
#[tactic(auto, unfolding(ray_rules::specs::Phases::phase_needed))]
fn phase_needed(command: &Command) -> Phase
    ensures { result ≡ phase_needed command.now }
{
    match command {
        Command::Buffer { .. }
        | Command::Structure { .. }
        | Command::Destroy { .. }
        | Command::Sizes { .. }
        | Command::Begin
        | Command::Wait
        | Command::Read { .. } => Phase::Idle,
        Command::Submit => Phase::Ended,
        Command::End
        | Command::Update { .. }
        | Command::Fill { .. }
        | Command::Copy { .. }
        | Command::Build { .. }
        | Command::CopyStructure { .. }
        | Command::Serialize { .. }
        | Command::Deserialize { .. }
        | Command::Property { .. }
        | Command::Barrier { .. }
        | Command::Trace { .. } => Phase::Recording,
    }
}
