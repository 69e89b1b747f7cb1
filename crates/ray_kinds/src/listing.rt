ghost use Rattle.std.specs.Prelude.{◌≤◌, IfSome};
ghost use Rattle.ray_cmd.specs.declared.rule.Rule.TheVariants.{V};
ghost use Rattle.ray_kinds.specs.Misfits.{IsMisfit};

use crate::fast::prefers_both_at;
use crate::misfit::Misfit;
use crate::pairs::wrong_copy;
use crate::rays::exclusive;
use crate::testing::misfit_at;
use crate::usages::wrong_usage;
use ray_causes::{Member, Name, info_at};
use ray_cmd::{Command, Place, Refusal, Rule};
use ray_status::Status;

// The members of a command itself that a rule compares, in the order in which they are told.
const OWN: &[Name] = &[Name::Src, Name::Top, Name::SrcAccess, Name::DstAccess];

// Those of an info that are told behind its items.
const OF_INFO: &[Name] = &[Name::Uses, Name::Src];

// What doesn't fit first of the command of a refusal, by its rule where it says.
pub(crate) fn first_misfit(status: &Status, command: &Command, refusal: Refusal) -> Option<Misfit>
    ensures { IfSome result (λ misfit. IsMisfit status.now command.now refusal.rule misfit) }
{
    match refusal.rule {
        Rule::V(number) => of_rule(status, command, number, refusal.place),
        Rule::X(_) => None,
    }
}

// The same of the rule V of this number.
fn of_rule(status: &Status, command: &Command, number: u8, place: Place) -> Option<Misfit>
    ensures { IfSome result (λ misfit. IsMisfit status.now command.now (V number) misfit) }
{
    match number {
        3 => wrong_usage(status, command),
        19 => wrong_copy(status, command),
        22 => match exclusive(command) {
            Some(two) => Some(Misfit::Exclusive(two)),
            None => None,
        },
        _ => of_members(status, command, number, place),
    }
}

// The same of the command's members.
fn of_members(status: &Status, command: &Command, number: u8, place: Place) -> Option<Misfit>
    ensures { IfSome result (λ misfit. IsMisfit status.now command.now (V number) misfit) }
{
    match of_names(status, command, number, OWN) {
        Some(misfit) => Some(misfit),
        None => of_parts(status, command, number, place),
    }
}

// The same of members of the command itself.
fn of_names(status: &Status, command: &Command, number: u8, names: &[Name]) -> Option<Misfit>
    ensures { IfSome result (λ misfit. IsMisfit status.now command.now (V number) misfit) }
{
    for name in names {
        if let Some(misfit) = misfit_at(status, command, number, Member::Own(*name)) {
            return Some(misfit);
        }
    }
    None
}

// The same of its parts: of the info of the place, and of the items of a list.
fn of_parts(status: &Status, command: &Command, number: u8, place: Place) -> Option<Misfit>
    ensures { IfSome result (λ misfit. IsMisfit status.now command.now (V number) misfit) }
{
    match command {
        Command::Build { .. } => match place {
            Place::Part(info) => of_info(status, command, number, info),
            _ => None,
        },
        Command::Deserialize { uses, .. } => {
            let count = uses.as_slice().len();
            of_list(status, command, number, Name::Uses, count)
        }
        Command::Property { structures, .. } => {
            let count = structures.as_slice().len();
            of_list(status, command, number, Name::Structures, count)
        }
        _ => None,
    }
}

// The same of the items of a list, and of the list.
fn of_list(
    status: &Status,
    command: &Command,
    number: u8,
    name: Name,
    count: usize,
) -> Option<Misfit>
    requires count { count ≤ 67108864 }
    ensures { IfSome result (λ misfit. IsMisfit status.now command.now (V number) misfit) }
{
    match of_items(status, command, number, name, count) {
        Some(misfit) => Some(misfit),
        None => misfit_at(status, command, number, Member::Own(name)),
    }
}

// The same of the items of a list.
fn of_items(
    status: &Status,
    command: &Command,
    number: u8,
    name: Name,
    count: usize,
) -> Option<Misfit>
    requires count { count ≤ 67108864 }
    ensures { IfSome result (λ misfit. IsMisfit status.now command.now (V number) misfit) }
{
    for item in 0..count {
        let member = Member::Item(name, item as u32);
        if let Some(misfit) = misfit_at(status, command, number, member) {
            return Some(misfit);
        }
    }
    None
}

// The same of an info.
fn of_info(status: &Status, command: &Command, number: u8, info: u32) -> Option<Misfit>
    ensures { IfSome result (λ misfit. IsMisfit status.now command.now (V number) misfit) }
{
    if number == 9 && prefers_both_at(command, info) {
        Some(Misfit::BothFast(info))
    } else {
        of_structures_at(status, command, number, info)
    }
}

// The same of the structures that the info of this number names.
fn of_structures_at(status: &Status, command: &Command, number: u8, info: u32) -> Option<Misfit>
    ensures { IfSome result (λ misfit. IsMisfit status.now command.now (V number) misfit) }
{
    match info_at(command, info) {
        Some(found) => {
            let count = found.uses.as_slice().len();
            of_structures(status, command, number, info, count)
        }
        None => None,
    }
}

// The same of so many entries of `uses`, and of the other structures that an info names.
fn of_structures(
    status: &Status,
    command: &Command,
    number: u8,
    info: u32,
    count: usize,
) -> Option<Misfit>
    requires count { count ≤ 67108864 }
    ensures { IfSome result (λ misfit. IsMisfit status.now command.now (V number) misfit) }
{
    match of_uses(status, command, number, info, count) {
        Some(misfit) => Some(misfit),
        None => of_info_names(status, command, number, info, OF_INFO),
    }
}

// The same of the entries of `uses` of an info.
fn of_uses(
    status: &Status,
    command: &Command,
    number: u8,
    info: u32,
    count: usize,
) -> Option<Misfit>
    requires count { count ≤ 67108864 }
    ensures { IfSome result (λ misfit. IsMisfit status.now command.now (V number) misfit) }
{
    for item in 0..count {
        let member = Member::InfoItem(info, Name::Uses, item as u32);
        if let Some(misfit) = misfit_at(status, command, number, member) {
            return Some(misfit);
        }
    }
    None
}

// The same of the members of an info.
fn of_info_names(
    status: &Status,
    command: &Command,
    number: u8,
    info: u32,
    names: &[Name],
) -> Option<Misfit>
    ensures { IfSome result (λ misfit. IsMisfit status.now command.now (V number) misfit) }
{
    for name in names {
        let member = Member::Info(info, *name);
        if let Some(misfit) = misfit_at(status, command, number, member) {
            return Some(misfit);
        }
    }
    None
}
