ghost use Rattle.std.specs.Prelude.{◌≡◌, ◌<◌, ◌≤◌, ◌^◌, IfSome, None, length, true};
ghost use Rattle.std.specs.List.{position};
ghost use Rattle.std.specs.Option.{option_copied};
ghost use Rattle.ray_rules.specs.Origins.{uses_of};
ghost use Rattle.ray_rules.specs.Places.{first_part};
ghost use Rattle.ray_rules.specs.Sources.{compacts_forbidden, first_not_compactable, first_stale, is_later, is_not_compactable, is_stale, is_stale_structure, is_unbuilt, v13, v14, v15, v17, v18, v20, v21};
ghost use Rattle.ray_valid.specs.Parts.{forbids_compaction};

use crate::place::{part, whole};
use bitflags::Flags;
use ray_cmd::{Asked, BuildFlags, Command, CopyMode, Info, Listed, Place, Recording};
use ray_infos::{first_changed, first_forbidden, first_with_unbuilt, first_without_source};
use ray_rules::{Built, LiveStructure};
use ray_status::{
    Status, has_unbuilt, info_at, is_bottom, is_deserialized_at, is_unbuilt, uses_of,
};

// V13: update's `src` isn't built, or its contents came by `deserialize`.
#[tactic(auto, unfolding(ray_rules::specs::Sources::v13))]
pub(crate) fn v13(rec: &Recording, status: &Status, command: &Command) -> Option<Place>
    ensures { result ≡ v13 rec.now status.now command.now }
{
    match command {
        Command::Build { infos } => first_without_source(rec, status, infos),
        _ => None,
    }
}

// V14: update's `src` was built without `allow_update`.
#[tactic(auto, unfolding(ray_rules::specs::Sources::v14))]
pub(crate) fn v14(rec: &Recording, status: &Status, command: &Command) -> Option<Place>
    ensures { result ≡ v14 rec.now status.now command.now }
{
    match command {
        Command::Build { infos } => first_forbidden(rec, status, infos),
        _ => None,
    }
}

// V15: an update differs from its source in build flags, geometry count, or a geometry's kind,
// opaque, format, index type, `max_vertex` or count, or in whether a geometry has a `transform`.
#[tactic(auto, unfolding(ray_rules::specs::Sources::v15))]
pub(crate) fn v15(rec: &Recording, status: &Status, command: &Command) -> Option<Place>
    ensures { result ≡ v15 rec.now status.now command.now }
{
    match command {
        Command::Build { infos } => first_changed(rec, status, infos),
        _ => None,
    }
}

// V17: the source of a `copy_structure` or `serialize`, a structure of `property`, or a `uses`
// entry of a build or `deserialize` isn't built.
#[tactic(auto, unfolding(ray_rules::specs::Sources::v17))]
pub(crate) fn v17(status: &Status, command: &Command) -> Option<Place>
    ensures { result ≡ v17 status.now command.now }
{
    match command {
        Command::Build { infos } => first_with_unbuilt(status, infos),
        Command::CopyStructure { src, .. } => whole(is_unbuilt(status, *src)),
        Command::Serialize { src, .. } => whole(is_unbuilt(status, *src)),
        Command::Deserialize { uses, .. } => whole(has_unbuilt(status, uses.as_slice())),
        Command::Property { structures, .. } => first_unbuilt(status, structures),
        _ => None,
    }
}

// The first structure that isn't built.
fn first_unbuilt(status: &Status, structures: &Listed<u32>) -> Option<Place>
    ensures { result ≡ first_part (is_unbuilt status.now) structures.now }
{
    part(position_of_unbuilt(status, structures.as_slice()))
}

// The number of that structure.
fn position_of_unbuilt(status: &Status, structures: &[u32]) -> Option<usize>
    requires { length structures.now ≤ 67108864 }
    ensures value { result ≡ position (is_unbuilt status.now) structures.now }
    ensures few { IfSome result (λ k. k < 2 ^ 32) }
{
    structures.iter().position(|id| is_unbuilt(status, *id))
}

// V18: `compact` or `compacted` of a structure built without `allow_compaction`, or whose contents
// came by `deserialize`.
#[tactic(auto, unfolding(ray_rules::specs::Sources::v18))]
pub(crate) fn v18(rec: &Recording, status: &Status, command: &Command) -> Option<Place>
    ensures { result ≡ v18 rec.now status.now command.now }
{
    match command {
        Command::CopyStructure { mode, src, .. } => {
            whole(compacts_forbidden(rec, status, *mode, *src))
        }
        Command::Property {
            what,
            structures,
            ..
        } => first_not_compactable(rec, status, *what, structures),
        _ => None,
    }
}

// Whether what can't be compacted is to be.
fn compacts_forbidden(rec: &Recording, status: &Status, mode: CopyMode, src: u32) -> bool
    ensures { result ≡ compacts_forbidden rec.now status.now mode src }
{
    match mode {
        CopyMode::Clone => false,
        CopyMode::Compact => is_not_compactable(rec, status, src),
    }
}

// The first structure that can't be compacted, where the compacted size is asked.
fn first_not_compactable(
    rec: &Recording,
    status: &Status,
    what: Asked,
    structures: &Listed<u32>,
) -> Option<Place>
    ensures { result ≡ first_not_compactable rec.now status.now what structures.now }
{
    match what {
        Asked::Compacted => part(position_of_not_compactable(rec, status, structures.as_slice())),
        Asked::Serialized | Asked::SerializedForm2 | Asked::Handles | Asked::Size => None,
    }
}

// The number of the first structure that can't be compacted.
fn position_of_not_compactable(
    rec: &Recording,
    status: &Status,
    structures: &[u32],
) -> Option<usize>
    requires { length structures.now ≤ 67108864 }
    ensures value { result ≡ position (is_not_compactable rec.now status.now) structures.now }
    ensures few { IfSome result (λ k. k < 2 ^ 32) }
{
    structures
        .iter()
        .position(|id| is_not_compactable(rec, status, *id))
}

// Whether the structure of an id can't be compacted.
fn is_not_compactable(rec: &Recording, status: &Status, id: u32) -> bool
    ensures { result ≡ is_not_compactable rec.now status.now id }
{
    forbids_compaction(info_at(rec, status, id)) || is_deserialized_at(rec, status, id)
}

// Whether an info, where there is one, is without `allow_compaction`.
fn forbids_compaction(info: Option<&Info>) -> bool
    ensures { result ≡ forbids_compaction (option_copied info.entry) }
{
    match info {
        Some(info) => !info.flags.contains(BuildFlags::ALLOW_COMPACTION),
        None => false,
    }
}

// V20: trace's `top` isn't built.
#[tactic(auto, unfolding(ray_rules::specs::Sources::v20))]
pub(crate) fn v20(status: &Status, command: &Command) -> Option<Place>
    ensures { result ≡ v20 status.now command.now }
{
    match command {
        Command::Trace { top, .. } => whole(is_unbuilt(status, *top)),
        _ => None,
    }
}

// V21: a `uses` entry of the traced top isn't a live built bottom, or was last written after the
// top's stamp.
#[tactic(auto, unfolding(ray_rules::specs::Sources::v21))]
pub(crate) fn v21(rec: &Recording, status: &Status, command: &Command) -> Option<Place>
    ensures { result ≡ v21 rec.now status.now command.now }
{
    match command {
        Command::Trace { top, .. } => first_stale(rec, status, status.built(*top)),
        _ => None,
    }
}

// V21 again, where it may be known already that the rule is kept: then nothing is looked at.
pub(crate) fn v21_unless(
    known: bool,
    rec: &Recording,
    status: &Status,
    command: &Command,
) -> Option<Place>
    requires { known ≡ true → v21 rec.now status.now command.now ≡ None }
    ensures { result ≡ v21 rec.now status.now command.now }
{
    if known {
        None
    } else {
        v21(rec, status, command)
    }
}

// The first of the structures that a top may refer to that is stale.
fn first_stale(rec: &Recording, status: &Status, built: Option<Built>) -> Option<Place>
    ensures { result ≡ first_stale rec.now status.now built }
{
    match built {
        Some(built) => part(position_of_stale(status, built.stamp, uses_of(rec, &built))),
        None => None,
    }
}

// The number of the first structure that is stale.
fn position_of_stale(status: &Status, stamp: u32, ids: &[u32]) -> Option<usize>
    requires { length ids.now ≤ 67108864 }
    ensures value { result ≡ position (is_stale status.now stamp) ids.now }
    ensures few { IfSome result (λ k. k < 2 ^ 32) }
{
    ids.iter().position(|id| is_stale(status, stamp, *id))
}

// Whether the structure of an id is stale.
fn is_stale(status: &Status, stamp: u32, id: u32) -> bool
    ensures { result ≡ is_stale status.now stamp id }
{
    is_stale_structure(stamp, status.structure(id))
}

// Whether a structure isn't a live built bottom, or was last written after a stamp.
fn is_stale_structure(stamp: u32, structure: Option<LiveStructure>) -> bool
    ensures { result ≡ is_stale_structure stamp structure }
{
    match structure {
        Some(structure) => !is_bottom(structure.kind) || is_later(stamp, structure.built),
        None => true,
    }
}

// Whether what a structure was built by isn't there, or was written after a stamp.
fn is_later(stamp: u32, built: Option<Built>) -> bool
    ensures { result ≡ is_later stamp built }
{
    match built {
        Some(built) => stamp < built.written,
        None => true,
    }
}
