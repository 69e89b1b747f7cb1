ghost use Rattle.std.specs.Prelude.{◌≤◌, IfSome, length};
ghost use Rattle.ray_cmd.specs.declared.rule.Rule.TheVariants.{V};
ghost use Rattle.ray_limits.specs.Limits.{IsLimit};

use crate::limit::Limit;
use crate::standing::{full, misplaced};
use crate::testing::limit_at;
use ray_causes::{Member, Name};
use ray_cmd::{Command, Place, Recording, Refusal, Rule};
use ray_status::Status;

// The members of a command itself that a rule compares, in the order in which they are told.
const OWN: &[Name] = &[Name::Offset, Name::Size, Name::Data, Name::Dst];

// By which number the first member of the command of a refusal breaks its rule where it says.
pub(crate) fn first_limit(
    rec: &Recording,
    status: &Status,
    command: &Command,
    refusal: Refusal,
) -> Option<Limit>
    requires { refusal.command ≤ length rec.now }
    ensures { IfSome result (λ limit. IsLimit status.now command.now refusal.rule limit) }
{
    match refusal.rule {
        Rule::V(number) => { of_rule(rec, refusal.command, status, command, number, refusal.place) }
        Rule::X(_) => None,
    }
}

// The same of the rule V of this number.
fn of_rule(
    rec: &Recording,
    i: u32,
    status: &Status,
    command: &Command,
    number: u8,
    place: Place,
) -> Option<Limit>
    requires { i ≤ length rec.now }
    ensures { IfSome result (λ limit. IsLimit status.now command.now (V number) limit) }
{
    match of_own(status, command, number, OWN) {
        Some(limit) => Some(limit),
        None => match of_part(status, command, number, place) {
            Some(limit) => Some(limit),
            None => of_standing(rec, i, status, command, number),
        },
    }
}

// The same of the members of the command itself.
fn of_own(status: &Status, command: &Command, number: u8, names: &[Name]) -> Option<Limit>
    ensures { IfSome result (λ limit. IsLimit status.now command.now (V number) limit) }
{
    for name in names {
        if let Some(limit) = limit_at(status, command, number, Member::Own(*name)) {
            return Some(limit);
        }
    }
    None
}

// The same of the region or the info of the place.
fn of_part(status: &Status, command: &Command, number: u8, place: Place) -> Option<Limit>
    ensures { IfSome result (λ limit. IsLimit status.now command.now (V number) limit) }
{
    match place {
        Place::Part(part) => {
            match limit_at(status, command, number, Member::Region(part, Name::Size)) {
                Some(limit) => Some(limit),
                None => limit_at(status, command, number, Member::Info(part, Name::Dst)),
            }
        }
        _ => None,
    }
}

// The same of what stands where a new buffer or structure would.
fn of_standing(
    rec: &Recording,
    i: u32,
    status: &Status,
    command: &Command,
    number: u8,
) -> Option<Limit>
    requires { i ≤ length rec.now }
    ensures { IfSome result (λ limit. IsLimit status.now command.now (V number) limit) }
{
    match number {
        2 => full(status, command),
        6 => misplaced(rec, i, status, command),
        _ => None,
    }
}
