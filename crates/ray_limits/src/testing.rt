ghost use Rattle.std.specs.Prelude.{IfSome};
ghost use Rattle.ray_cmd.specs.declared.rule.Rule.TheVariants.{V};
ghost use Rattle.ray_limits.specs.Limits.{IsLimit};

use crate::amounts::is_empty;
use crate::bounds::passed;
use crate::limit::Limit;
use crate::multiples::missed;
use crate::sizes::too_small;
use ray_causes::Member;
use ray_cmd::Command;
use ray_status::Status;

// By which number a member of a command breaks the rule V of a number.
pub(crate) fn limit_at(
    status: &Status,
    command: &Command,
    number: u8,
    member: Member,
) -> Option<Limit>
    ensures { IfSome result (λ limit. IsLimit status.now command.now (V number) limit) }
{
    if is_empty(number, command, member) {
        Some(Limit::Empty(member))
    } else {
        other_limit_at(status, command, number, member)
    }
}

// The same where it has bytes.
fn other_limit_at(status: &Status, command: &Command, number: u8, member: Member) -> Option<Limit>
    ensures { IfSome result (λ limit. IsLimit status.now command.now (V number) limit) }
{
    match missed(number, command, member) {
        Some(multiple) => Some(Limit::NoMultiple(member, multiple)),
        None => match passed(number, command, member) {
            Some(bound) => Some(Limit::Above(member, bound)),
            None => too_small(status, command, number, member),
        },
    }
}
