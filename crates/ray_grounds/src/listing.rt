ghost use Rattle.std.specs.Prelude.{◌≤◌, IfSome, length};
ghost use Rattle.ray_cmd.specs.declared.rule.Rule.TheVariants.{V};
ghost use Rattle.ray_grounds.specs.Grounds.{IsGround};

use crate::entries::stale_at;
use crate::grounds::Ground;
use crate::held::held_at;
use crate::testing::ground_at;
use ray_causes::{Member, Name, info_at};
use ray_cmd::{Command, Place, Recording, Refusal, Rule};
use ray_status::Status;

// The members of a command itself that a rule compares, in the order in which they are told.
const OWN: &[Name] = &[Name::Op, Name::Id, Name::Src, Name::Dst, Name::Top];

// Those of an info.
const OF_INFO: &[Name] = &[Name::Dst, Name::Src];

// On which ground the first member of the command of a refusal breaks its rule where it says.
pub(crate) fn first_ground(
    rec: &Recording,
    status: &Status,
    command: &Command,
    refusal: Refusal,
) -> Option<Ground>
    requires { refusal.command ≤ length rec.now }
    ensures { IfSome result (λ basis. IsGround rec.now refusal.command status.now command.now
        refusal.rule basis) }
{
    match refusal.rule {
        Rule::V(number) => { of_rule(rec, refusal.command, status, command, number, refusal.place) }
        Rule::X(_) => None,
    }
}

// The same of the rule V of this number.
fn of_rule(
    rec: &Recording,
    i: u32,
    status: &Status,
    command: &Command,
    number: u8,
    place: Place,
) -> Option<Ground>
    requires { i ≤ length rec.now }
    ensures { IfSome result
        (λ basis. IsGround rec.now i status.now command.now (V number) basis) }
{
    match of_own(rec, i, status, command, number, OWN) {
        Some(ground) => Some(ground),
        None => of_parts(rec, i, status, command, number, place),
    }
}

// The same of the members of the command itself.
fn of_own(
    rec: &Recording,
    i: u32,
    status: &Status,
    command: &Command,
    number: u8,
    names: &[Name],
) -> Option<Ground>
    requires { i ≤ length rec.now }
    ensures { IfSome result
        (λ basis. IsGround rec.now i status.now command.now (V number) basis) }
{
    for name in names {
        if let Some(ground) = ground_at(rec, i, status, command, number, Member::Own(*name)) {
            return Some(ground);
        }
    }
    None
}

// The same of its parts: of the info of the place, of the items of a list, of the entry of the
// place of what a traced top was built by, and of a buffer that is destroyed.
fn of_parts(
    rec: &Recording,
    i: u32,
    status: &Status,
    command: &Command,
    number: u8,
    place: Place,
) -> Option<Ground>
    requires { i ≤ length rec.now }
    ensures { IfSome result
        (λ basis. IsGround rec.now i status.now command.now (V number) basis) }
{
    match command {
        Command::Build { .. } => match place {
            Place::Part(info) => of_info(rec, i, status, command, number, info),
            _ => None,
        },
        Command::Deserialize { uses, .. } => {
            let count = uses.as_slice().len();
            of_items(rec, i, status, command, number, Name::Uses, count)
        }
        Command::Property { structures, .. } => {
            let count = structures.as_slice().len();
            of_items(rec, i, status, command, number, Name::Structures, count)
        }
        Command::Trace { .. } => match place {
            Place::Part(entry) => of_entry(rec, i, status, command, number, entry),
            _ => None,
        },
        Command::Destroy { .. } => of_buffer(rec, i, status, command, number),
        _ => None,
    }
}

// The same of the buffer that a command destroys.
fn of_buffer(
    rec: &Recording,
    i: u32,
    status: &Status,
    command: &Command,
    number: u8,
) -> Option<Ground>
    requires { i ≤ length rec.now }
    ensures { IfSome result
        (λ basis. IsGround rec.now i status.now command.now (V number) basis) }
{
    match held_at(rec, i, status, command, number) {
        Some(fact) => Some(Ground::Standing(fact)),
        None => None,
    }
}

// The same of the items of a list.
fn of_items(
    rec: &Recording,
    i: u32,
    status: &Status,
    command: &Command,
    number: u8,
    name: Name,
    count: usize,
) -> Option<Ground>
    requires i { i ≤ length rec.now }
    requires count { count ≤ 67108864 }
    ensures { IfSome result
        (λ basis. IsGround rec.now i status.now command.now (V number) basis) }
{
    for item in 0..count {
        let member = Member::Item(name, item as u32);
        if let Some(ground) = ground_at(rec, i, status, command, number, member) {
            return Some(ground);
        }
    }
    None
}

// The same of an entry of `uses` by which the traced top was built.
fn of_entry(
    rec: &Recording,
    i: u32,
    status: &Status,
    command: &Command,
    number: u8,
    entry: u32,
) -> Option<Ground>
    ensures { IfSome result
        (λ basis. IsGround rec.now i status.now command.now (V number) basis) }
{
    match stale_at(rec, status, command, number, entry) {
        Some(origin) => Some(Ground::Built(origin)),
        None => None,
    }
}

// The same of an info.
fn of_info(
    rec: &Recording,
    i: u32,
    status: &Status,
    command: &Command,
    number: u8,
    info: u32,
) -> Option<Ground>
    requires { i ≤ length rec.now }
    ensures { IfSome result
        (λ basis. IsGround rec.now i status.now command.now (V number) basis) }
{
    match of_info_members(rec, i, status, command, number, info, OF_INFO) {
        Some(ground) => Some(ground),
        None => match info_at(command, info) {
            Some(found) => {
                let count = found.uses.as_slice().len();
                of_uses(rec, i, status, command, number, info, count)
            }
            None => None,
        },
    }
}

// The same of the members of an info.
fn of_info_members(
    rec: &Recording,
    i: u32,
    status: &Status,
    command: &Command,
    number: u8,
    info: u32,
    names: &[Name],
) -> Option<Ground>
    requires { i ≤ length rec.now }
    ensures { IfSome result
        (λ basis. IsGround rec.now i status.now command.now (V number) basis) }
{
    for name in names {
        let member = Member::Info(info, *name);
        if let Some(ground) = ground_at(rec, i, status, command, number, member) {
            return Some(ground);
        }
    }
    None
}

// The same of the entries of `uses` of an info.
fn of_uses(
    rec: &Recording,
    i: u32,
    status: &Status,
    command: &Command,
    number: u8,
    info: u32,
    count: usize,
) -> Option<Ground>
    requires i { i ≤ length rec.now }
    requires count { count ≤ 67108864 }
    ensures { IfSome result
        (λ basis. IsGround rec.now i status.now command.now (V number) basis) }
{
    for item in 0..count {
        let member = Member::InfoItem(info, Name::Uses, item as u32);
        if let Some(ground) = ground_at(rec, i, status, command, number, member) {
            return Some(ground);
        }
    }
    None
}
