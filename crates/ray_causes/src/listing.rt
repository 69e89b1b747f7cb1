ghost use Rattle.std.specs.Prelude.{◌≡◌, ◌≤◌, IfSome};
ghost use Rattle.ray_causes.specs.Causes.{IsCause};

use crate::cause::Cause;
use crate::member::{Member, Name};
use crate::ranges::info_at;
use crate::testing::cause_at;
use ray_cmd::{Command, Place, Rule};
use ray_status::Status;

// The members of a command itself that a rule compares, in the order in which they are told.
const OWN: &[Name] = &[
    Name::Id,
    Name::Buffer,
    Name::Size,
    Name::Data,
    Name::Src,
    Name::Dst,
    Name::Top,
    Name::Rays,
    Name::Hits,
];

// Those of a region.
const OF_REGION: &[Name] = &[Name::SrcOffset, Name::DstOffset];

// Those of an info.
const OF_INFO: &[Name] = &[Name::Dst, Name::Src, Name::Scratch];

// Those of a geometry.
const OF_GEOMETRY: &[Name] = &[
    Name::Vertex,
    Name::Stride,
    Name::Index,
    Name::Transform,
    Name::Data,
    Name::PrimitiveOffset,
    Name::TransformOffset,
];

// By what the first member of a command that breaks a rule at a place breaks it.
pub(crate) fn first_cause(
    status: &Status,
    command: &Command,
    rule: Rule,
    place: Place,
) -> Option<Cause>
    ensures { IfSome result (λ cause. IsCause status.now command.now rule cause) }
{
    match of_own(status, command, rule, OWN) {
        Some(cause) => Some(cause),
        None => of_parts(status, command, rule, place),
    }
}

// The same of the members of the command itself.
fn of_own(status: &Status, command: &Command, rule: Rule, names: &[Name]) -> Option<Cause>
    ensures { IfSome result (λ cause. IsCause status.now command.now rule cause) }
{
    for name in names {
        if let Some(cause) = cause_at(status, command, rule, Member::Own(*name)) {
            return Some(cause);
        }
    }
    None
}

// The same of its parts: of the region or the info of the place, and of the items of a list.
fn of_parts(status: &Status, command: &Command, rule: Rule, place: Place) -> Option<Cause>
    ensures { IfSome result (λ cause. IsCause status.now command.now rule cause) }
{
    match command {
        Command::Copy { .. } => match place {
            Place::Part(region) => of_region(status, command, rule, region, OF_REGION),
            _ => None,
        },
        Command::Build { .. } => match place {
            Place::Part(info) => of_info(status, command, rule, info),
            _ => None,
        },
        Command::Deserialize { uses, .. } => {
            of_items(status, command, rule, Name::Uses, uses.as_slice().len())
        }
        Command::Property { structures, .. } => {
            of_items(
                status,
                command,
                rule,
                Name::Structures,
                structures.as_slice().len(),
            )
        }
        Command::Barrier { buffers, .. } => match buffers {
            Some(ids) => of_items(status, command, rule, Name::Buffers, ids.as_slice().len()),
            None => None,
        },
        _ => None,
    }
}

// The same of the items of a list.
fn of_items(
    status: &Status,
    command: &Command,
    rule: Rule,
    name: Name,
    count: usize,
) -> Option<Cause>
    requires { count ≤ 67108864 }
    ensures { IfSome result (λ cause. IsCause status.now command.now rule cause) }
{
    for item in 0..count {
        if let Some(cause) = cause_at(status, command, rule, Member::Item(name, item as u32)) {
            return Some(cause);
        }
    }
    None
}

// The same of the members of a region.
fn of_region(
    status: &Status,
    command: &Command,
    rule: Rule,
    region: u32,
    names: &[Name],
) -> Option<Cause>
    ensures { IfSome result (λ cause. IsCause status.now command.now rule cause) }
{
    for name in names {
        if let Some(cause) = cause_at(status, command, rule, Member::Region(region, *name)) {
            return Some(cause);
        }
    }
    None
}

// The same of an info.
fn of_info(status: &Status, command: &Command, rule: Rule, info: u32) -> Option<Cause>
    ensures { IfSome result (λ cause. IsCause status.now command.now rule cause) }
{
    match of_info_members(status, command, rule, info, OF_INFO) {
        Some(cause) => Some(cause),
        None => match info_at(command, info) {
            Some(found) => match of_geometries(
                status,
                command,
                rule,
                info,
                found.geometries.as_slice().len(),
            ) {
                Some(cause) => Some(cause),
                None => of_uses(status, command, rule, info, found.uses.as_slice().len()),
            },
            None => None,
        },
    }
}

// The same of the members of an info.
fn of_info_members(
    status: &Status,
    command: &Command,
    rule: Rule,
    info: u32,
    names: &[Name],
) -> Option<Cause>
    ensures { IfSome result (λ cause. IsCause status.now command.now rule cause) }
{
    for name in names {
        if let Some(cause) = cause_at(status, command, rule, Member::Info(info, *name)) {
            return Some(cause);
        }
    }
    None
}

// The same of the geometries of an info.
fn of_geometries(
    status: &Status,
    command: &Command,
    rule: Rule,
    info: u32,
    count: usize,
) -> Option<Cause>
    requires { count ≤ 67108864 }
    ensures { IfSome result (λ cause. IsCause status.now command.now rule cause) }
{
    for geometry in 0..count {
        if let Some(cause) = of_geometry(
            status,
            command,
            rule,
            info,
            geometry as u32,
            OF_GEOMETRY,
        ) {
            return Some(cause);
        }
    }
    None
}

// The same of the members of a geometry.
fn of_geometry(
    status: &Status,
    command: &Command,
    rule: Rule,
    info: u32,
    geometry: u32,
    names: &[Name],
) -> Option<Cause>
    ensures { IfSome result (λ cause. IsCause status.now command.now rule cause) }
{
    for name in names {
        let member = Member::Geometry(info, geometry, *name);
        if let Some(cause) = cause_at(status, command, rule, member) {
            return Some(cause);
        }
    }
    None
}

// The same of the entries of `uses` of an info.
fn of_uses(status: &Status, command: &Command, rule: Rule, info: u32, count: usize) -> Option<Cause>
    requires { count ≤ 67108864 }
    ensures { IfSome result (λ cause. IsCause status.now command.now rule cause) }
{
    for item in 0..count {
        let member = Member::InfoItem(info, Name::Uses, item as u32);
        if let Some(cause) = cause_at(status, command, rule, member) {
            return Some(cause);
        }
    }
    None
}
