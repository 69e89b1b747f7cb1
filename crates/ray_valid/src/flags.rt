ghost use Rattle.std.specs.Prelude.{◌≡◌, option_map};
ghost use Rattle.ray_cmd.specs.declared.place.Place.TheVariants.{Part};
ghost use Rattle.ray_rules.specs.FlagRules.{are_several, is_contradiction, is_unsupported, v22, v23, v24};
ghost use Rattle.ray_valid.specs.Parts.{lacks_for_host, lacks_for_memory, lacks_for_shaders, lacks_for_structures, lacks_for_transfers};

use crate::place::whole;
use bitflags::Flags;
use ray_cmd::{Access, Command, Place, RayFlags, Stages};
use ray_script::first_refused;

// V22: more than one of `opaque`, `no_opaque`, `cull_opaque`, `cull_no_opaque`; more than one of
// `skip_triangles`, `cull_back_facing`, `cull_front_facing`; both skips.
#[tactic(auto, unfolding(ray_rules::specs::FlagRules::v22))]
pub(crate) fn v22(command: &Command) -> Option<Place>
    ensures { result ≡ v22 command.now }
{
    match command {
        Command::Trace { flags, .. } => whole(is_contradiction(*flags)),
        _ => None,
    }
}

// Whether ray flags contradict each other.
fn is_contradiction(flags: RayFlags) -> bool
    ensures { result ≡ is_contradiction flags }
{
    let skips_triangles = flags.contains(RayFlags::SKIP_TRIANGLES);
    are_several(&[
        flags.contains(RayFlags::OPAQUE),
        flags.contains(RayFlags::NO_OPAQUE),
        flags.contains(RayFlags::CULL_OPAQUE),
        flags.contains(RayFlags::CULL_NO_OPAQUE),
    ]) || are_several(&[
        skips_triangles,
        flags.contains(RayFlags::CULL_BACK_FACING),
        flags.contains(RayFlags::CULL_FRONT_FACING),
    ]) || are_several(&[skips_triangles, flags.contains(RayFlags::SKIP_AABBS)])
}

// Whether more than one of these hold.
fn are_several(facts: &[bool]) -> bool
    ensures { result ≡ are_several facts.now }
{
    1 < facts.iter().filter(|fact| **fact).count()
}

// V23: a rule's `den` is 0 or above 65,536 or its `num` above 2^40; more than 4,096 rules.
#[tactic(auto, unfolding(ray_rules::specs::FlagRules::v23))]
pub(crate) fn v23(command: &Command) -> Option<Place>
    ensures { result ≡ v23 command.now }
{
    match command {
        Command::Trace { script, .. } => part_of_script(first_refused(script.as_slice())),
        _ => None,
    }
}

// The part of this number, if there is one.
fn part_of_script(number: Option<u32>) -> Option<Place>
    ensures { result ≡ option_map Part number }
{
    match number {
        Some(number) => Some(Place::Part(number)),
        None => None,
    }
}

// V24: an access that no named stage of its side supports.
#[tactic(auto, unfolding(ray_rules::specs::FlagRules::v24))]
pub(crate) fn v24(command: &Command) -> Option<Place>
    ensures { result ≡ v24 command.now }
{
    match command {
        Command::Barrier {
            src_stages,
            src_access,
            dst_stages,
            dst_access,
            ..
        } => whole(
            is_unsupported(*src_stages, *src_access) || is_unsupported(*dst_stages, *dst_access),
        ),
        _ => None,
    }
}

// Whether accesses have one that no stage supports.
#[tactic(auto, unfolding(ray_rules::specs::FlagRules::is_unsupported))]
fn is_unsupported(stages: Stages, access: Access) -> bool
    ensures { result ≡ is_unsupported stages access }
{
    lacks_for_transfers(stages, access)
        || lacks_for_shaders(stages, access)
        || lacks_for_structures(stages, access)
        || lacks_for_host(stages, access)
        || lacks_for_memory(stages, access)
}

// Whether transfers are among the accesses, and no stage for them is there.
fn lacks_for_transfers(stages: Stages, access: Access) -> bool
    ensures { result ≡ lacks_for_transfers stages access }
{
    let structures = stages.contains(Stages::BUILD) || stages.contains(Stages::STRUCTURE_COPY);
    let there = stages.contains(Stages::TRANSFER) || structures;
    (access.contains(Access::TRANSFER_READ) && !there)
        || (access.contains(Access::TRANSFER_WRITE) && !there)
}

// Whether accesses of shaders are among them, and no stage for one is there.
fn lacks_for_shaders(stages: Stages, access: Access) -> bool
    ensures { result ≡ lacks_for_shaders stages access }
{
    let build = stages.contains(Stages::BUILD);
    let compute = stages.contains(Stages::COMPUTE);
    (access.contains(Access::SHADER_READ) && !(build || compute))
        || (access.contains(Access::SHADER_WRITE) && !compute)
}

// Whether accesses of structures are among them, and no stage for one is there.
fn lacks_for_structures(stages: Stages, access: Access) -> bool
    ensures { result ≡ lacks_for_structures stages access }
{
    let build = stages.contains(Stages::BUILD);
    let copies = stages.contains(Stages::STRUCTURE_COPY);
    let compute = stages.contains(Stages::COMPUTE);
    (access.contains(Access::STRUCTURE_READ) && !(build || copies || compute))
        || (access.contains(Access::STRUCTURE_WRITE) && !(build || copies))
}

// Whether accesses of the host are among them, and its stage isn't there.
fn lacks_for_host(stages: Stages, access: Access) -> bool
    ensures { result ≡ lacks_for_host stages access }
{
    let host = stages.contains(Stages::HOST);
    (access.contains(Access::HOST_READ) && !host) || (access.contains(Access::HOST_WRITE) && !host)
}

// Whether all reads or all writes are among the accesses, and no stage is there.
fn lacks_for_memory(stages: Stages, access: Access) -> bool
    ensures { result ≡ lacks_for_memory stages access }
{
    (access.contains(Access::MEMORY_READ) || access.contains(Access::MEMORY_WRITE)) && stages.0 == 0
}
