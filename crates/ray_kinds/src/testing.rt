ghost use Rattle.std.specs.Prelude.{IfSome};
ghost use Rattle.ray_cmd.specs.declared.rule.Rule.TheVariants.{V};
ghost use Rattle.ray_kinds.specs.Misfits.{IsMisfit};

use crate::accesses::unsupported;
use crate::kinds::wrong_kind;
use crate::misfit::Misfit;
use crate::pairs::two_kinds;
use crate::uses::uses_of_bottom;
use ray_causes::Member;
use ray_cmd::Command;
use ray_status::Status;

// What doesn't fit at a member of a command, by the rule V of a number.
pub(crate) fn misfit_at(
    status: &Status,
    command: &Command,
    number: u8,
    member: Member,
) -> Option<Misfit>
    ensures { IfSome result (λ misfit. IsMisfit status.now command.now (V number) misfit) }
{
    match number {
        7 => of_kinds(status, command, member),
        24 => match unsupported(command, member) {
            Some(word) => Some(Misfit::Unsupported(member, word)),
            None => None,
        },
        _ => None,
    }
}

// The same of V7.
fn of_kinds(status: &Status, command: &Command, member: Member) -> Option<Misfit>
    ensures { IfSome result (λ misfit. IsMisfit status.now command.now (V 7) misfit) }
{
    match wrong_kind(status, command, member) {
        Some(misfit) => Some(misfit),
        None => match uses_of_bottom(status, command, member) {
            Some(misfit) => Some(misfit),
            None => two_kinds(status, command, 7, member),
        },
    }
}
