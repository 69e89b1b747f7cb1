ghost use Rattle.std.specs.Prelude.{◌≡◌, IfSome, Some};
ghost use Rattle.std.specs.Option.{option_and_then};
ghost use Rattle.ray_cmd.specs.declared.build_mode.BuildMode.TheVariants.{Build};
ghost use Rattle.ray_cmd.specs.declared.rule.Rule.TheVariants.{V};
ghost use Rattle.ray_causes.specs.Naming.{at_dst};
ghost use Rattle.ray_limits.specs.Limits.{IsLimit};
ghost use Rattle.ray_limits.specs.Sizes.{clone_sizes, info_sizes, mode_sizes, own_sizes};
ghost use Rattle.ray_limits.specs.Sizes.{short_at, short_by, sizes, sizes_at};

use crate::limit::{Limit, Sizes};
use crate::naming::at_dst;
use ray_causes::{Member, Name, info_at};
use ray_cmd::{BuildMode, Command, CopyMode, Info};
use ray_status::{Status, made_size, primitives, structure_size};

// That a structure is smaller than the rule V of a number asks.
pub(crate) fn too_small(
    status: &Status,
    command: &Command,
    number: u8,
    member: Member,
) -> Option<Limit>
    ensures { IfSome result (λ limit. IsLimit status.now command.now (V number) limit) }
{
    match number {
        11 => small(status, command, member),
        _ => None,
    }
}

// The same of V11.
fn small(status: &Status, command: &Command, member: Member) -> Option<Limit>
    ensures { IfSome result (λ limit. IsLimit status.now command.now (V 11) limit) }
{
    match short_at(status, command, member) {
        Some(sizes) => Some(Limit::Small(member, sizes)),
        None => None,
    }
}

// The sizes at a member, where its structure is smaller than it has to be.
fn short_at(status: &Status, command: &Command, member: Member) -> Option<Sizes>
    ensures { result ≡ short_at status.now command.now member }
{
    match sizes_at(status, command, member) {
        Some(sizes) => short_by(sizes),
        None => None,
    }
}

// These sizes, where the structure is smaller than it has to be.
fn short_by(sizes: Sizes) -> Option<Sizes>
    ensures { result ≡ short_by sizes }
{
    if u128::from(sizes.size) < sizes.wanted {
        Some(sizes)
    } else {
        None
    }
}

// The size of the structure at a member, and that which it has to have.
fn sizes_at(status: &Status, command: &Command, member: Member) -> Option<Sizes>
    ensures { result ≡ sizes_at status.now command.now member }
{
    match member {
        Member::Own(name) => own_sizes(status, command, name),
        Member::Info(number, name) => match info_at(command, number) {
            Some(info) => named(name, mode_sizes(status, info)),
            None => None,
        },
        _ => None,
    }
}

// Sizes, where the name is that of a destination.
fn named(name: Name, sizes: Option<Sizes>) -> Option<Sizes>
    ensures { result ≡ option_and_then (at_dst name) sizes }
{
    match sizes {
        Some(sizes) => at_dst(name, sizes),
        None => None,
    }
}

// The same of a member of the command itself.
fn own_sizes(status: &Status, command: &Command, name: Name) -> Option<Sizes>
    ensures { result ≡ own_sizes status.now command.now name }
{
    match command {
        Command::CopyStructure { mode, src, dst } => {
            named(name, clone_sizes(status, *mode, *src, *dst))
        }
        _ => None,
    }
}

// The same of the destination of a clone.
fn clone_sizes(status: &Status, mode: CopyMode, src: u32, dst: u32) -> Option<Sizes>
    ensures { result ≡ clone_sizes status.now mode src dst }
{
    match mode {
        CopyMode::Clone => Some(sizes(status, dst, u128::from(made_size(status, src)))),
        CopyMode::Compact => None,
    }
}

// The same of the destination of an info.
fn mode_sizes(status: &Status, info: &Info) -> Option<Sizes>
    ensures { result ≡ mode_sizes status.now info.now }
{
    match info.mode {
        BuildMode::Build => Some(build_sizes(status, info)),
        BuildMode::Update => match info.src {
            Some(src) => Some(sizes(status, info.dst, u128::from(made_size(status, src)))),
            None => None,
        },
    }
}

// The same where it builds.
fn build_sizes(status: &Status, info: &Info) -> Sizes
    ensures { Some result ≡ info_sizes status.now info.now Build }
{
    let geometries = info.geometries.as_slice();
    let wanted = structure_size(geometries.len(), primitives(geometries));
    sizes(status, info.dst, wanted)
}

// The size of the structure of an id, and that which it has to have.
fn sizes(status: &Status, id: u32, wanted: u128) -> Sizes
    ensures { result ≡ sizes status.now id wanted }
{
    Sizes {
        id,
        size: made_size(status, id),
        wanted,
    }
}
