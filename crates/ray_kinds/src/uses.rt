ghost use Rattle.std.specs.Prelude.{◌≡◌, IfSome};
ghost use Rattle.ray_cmd.specs.declared.rule.Rule.TheVariants.{V};
ghost use Rattle.ray_causes.specs.Naming.{at_uses};
ghost use Rattle.ray_kinds.specs.Kinds.{are_of_bottom, own_uses, uses_at, uses_for};
ghost use Rattle.ray_kinds.specs.Misfits.{IsMisfit};

use crate::misfit::{Misfit, Uses};
use ray_causes::{Member, Name, info_at};
use ray_cmd::Command;
use ray_status::{Status, is_bottom_at};

// That a member has entries of `uses` for a bottom.
pub(crate) fn uses_of_bottom(status: &Status, command: &Command, member: Member) -> Option<Misfit>
    ensures { IfSome result (λ misfit. IsMisfit status.now command.now (V 7) misfit) }
{
    match uses_at(command, member) {
        Some(uses) => {
            if are_of_bottom(status, uses) {
                Some(Misfit::UsesOfBottom(member, uses))
            } else {
                None
            }
        }
        None => None,
    }
}

// Whether there are any, for a bottom.
fn are_of_bottom(status: &Status, uses: Uses) -> bool
    ensures { result ≡ are_of_bottom status.now uses }
{
    is_bottom_at(status, uses.dst) && uses.count != 0
}

// The entries of `uses` of a member.
fn uses_at(command: &Command, member: Member) -> Option<Uses>
    ensures { result ≡ uses_at command.now member }
{
    match member {
        Member::Own(name) => own_uses(command, name),
        Member::Info(number, name) => match info_at(command, number) {
            Some(info) => at_uses(name, uses_for(info.uses.as_slice(), info.dst)),
            None => None,
        },
        _ => None,
    }
}

// Those of the command itself.
fn own_uses(command: &Command, name: Name) -> Option<Uses>
    ensures { result ≡ own_uses command.now name }
{
    match command {
        Command::Deserialize { dst, uses, .. } => at_uses(name, uses_for(uses.as_slice(), *dst)),
        _ => None,
    }
}

// The entries of a list, for a structure.
fn uses_for(ids: &[u32], dst: u32) -> Uses
    ensures { result ≡ uses_for ids.now dst }
{
    Uses {
        count: ids.len(),
        dst,
    }
}

// Those, at the name of `uses` alone.
fn at_uses(name: Name, uses: Uses) -> Option<Uses>
    ensures { result ≡ at_uses name uses }
{
    match name {
        Name::Uses => Some(uses),
        _ => None,
    }
}
