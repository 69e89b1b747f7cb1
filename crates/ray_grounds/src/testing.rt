ghost use Rattle.std.specs.Prelude.{◌≤◌, IfSome, length};
ghost use Rattle.ray_cmd.specs.declared.rule.Rule.TheVariants.{V};
ghost use Rattle.ray_grounds.specs.Facts.{IsFact};
ghost use Rattle.ray_grounds.specs.Grounds.{IsGround};

use crate::fact::Fact;
use crate::grounds::Ground;
use crate::origins::origin_at;
use crate::phases::wrong_phase;
use crate::submits::in_flight;
use crate::unbuilt::unbuilt;
use ray_causes::Member;
use ray_cmd::{Command, Recording};
use ray_status::Status;

// On which ground a member of a command breaks the rule V of a number.
pub(crate) fn ground_at(
    rec: &Recording,
    i: u32,
    status: &Status,
    command: &Command,
    number: u8,
    member: Member,
) -> Option<Ground>
    requires { i ≤ length rec.now }
    ensures { IfSome result
        (λ basis. IsGround rec.now i status.now command.now (V number) basis) }
{
    match fact_at(status, command, number, member) {
        Some(fact) => Some(Ground::Standing(fact)),
        None => built_or_submitted(rec, i, status, command, number, member),
    }
}

// The same by what something was built, or by what was submitted.
fn built_or_submitted(
    rec: &Recording,
    i: u32,
    status: &Status,
    command: &Command,
    number: u8,
    member: Member,
) -> Option<Ground>
    requires { i ≤ length rec.now }
    ensures { IfSome result
        (λ basis. IsGround rec.now i status.now command.now (V number) basis) }
{
    match origin_at(rec, status, command, number, member) {
        Some(origin) => Some(Ground::Built(origin)),
        None => in_flight(rec, i, status, command, number, member),
    }
}

// By what a member of a command breaks the rule V of a number where the command stands.
fn fact_at(status: &Status, command: &Command, number: u8, member: Member) -> Option<Fact>
    ensures { IfSome result (λ fact. IsFact status.now command.now (V number) fact) }
{
    match number {
        13 | 17 | 20 => unbuilt(status, command, number, member),
        28 => wrong_phase(status, command, member),
        _ => None,
    }
}
