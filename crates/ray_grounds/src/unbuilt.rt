ghost use Rattle.std.specs.Prelude.{◌≡◌, IfSome, Some, true};
ghost use Rattle.ray_cmd.specs.declared.rule.Rule.TheVariants.{V};
ghost use Rattle.ray_causes.specs.Names.{structure_named};
ghost use Rattle.ray_grounds.specs.Facts.{IsFact};
ghost use Rattle.ray_grounds.specs.Asking.{asks_built, built_by_name, rule_of_built, source_rule};

use crate::fact::Fact;
use ray_causes::{Member, Name, structure_named};
use ray_cmd::Command;
use ray_status::{Status, is_unbuilt};

// That a member names a structure that isn't built, where the rule V of a number asks that it is.
pub(crate) fn unbuilt(
    status: &Status,
    command: &Command,
    number: u8,
    member: Member,
) -> Option<Fact>
    ensures { IfSome result (λ fact. IsFact status.now command.now (V number) fact) }
{
    if asks_built(number, member) {
        match structure_named(command, member) {
            Some(id) => unbuilt_as(status, command, number, member, id),
            None => None,
        }
    } else {
        None
    }
}

// The same of the structure of an id.
fn unbuilt_as(
    status: &Status,
    command: &Command,
    number: u8,
    member: Member,
    id: u32,
) -> Option<Fact>
    requires asked { asks_built (V number) member ≡ true }
    requires named { structure_named command.now member ≡ Some id }
    ensures { IfSome result (λ fact. IsFact status.now command.now (V number) fact) }
{
    match status.maker_of_structure(id) {
        Some(made) => {
            if is_unbuilt(status, id) {
                Some(Fact::Unbuilt(member, id, made))
            } else {
                None
            }
        }
        None => None,
    }
}

// Whether the rule V of a number asks that the structure which a member names is built.
fn asks_built(number: u8, member: Member) -> bool
    ensures { result ≡ asks_built (V number) member }
{
    rule_of_built(member) == number
}

// The number of the rule that asks it, 0 for none.
fn rule_of_built(member: Member) -> u8
    ensures { result ≡ rule_of_built member }
{
    match member {
        Member::Own(name) => built_by_name(name),
        Member::Item(..) => 17,
        Member::Info(_, name) => source_rule(name),
        Member::InfoItem(..) => 17,
        _ => 0,
    }
}

// The same of a member of the command itself.
fn built_by_name(name: Name) -> u8
    ensures { result ≡ built_by_name name }
{
    match name {
        Name::Src => 17,
        Name::Top => 20,
        _ => 0,
    }
}

// The same of a member of an info: of the source of an update.
fn source_rule(name: Name) -> u8
    ensures { result ≡ source_rule name }
{
    match name {
        Name::Src => 13,
        _ => 0,
    }
}
