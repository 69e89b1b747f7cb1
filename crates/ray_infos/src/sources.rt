ghost use Rattle.std.specs.Prelude.{◌≡◌, ◌<◌, ◌≤◌, ◌^◌, IfSome, length};
ghost use Rattle.std.specs.List.{list_all, position, zip};
ghost use Rattle.std.specs.Option.{option_copied};
ghost use Rattle.ray_rules.specs.Places.{first_part};
ghost use Rattle.ray_rules.specs.Sources.{are_same_geometries, differs_from, differs_from_source, info_at, is_no_source, is_same_bool, is_same_format, is_same_geometry, is_same_index, is_same_pair, lacks_built_source, updates_forbidden, uses_unbuilt};
ghost use Rattle.ray_infos.specs.Parts.{differs_if, forbids_update};

use crate::first::part;
use bitflags::Flags;
use ray_bytes::Format;
use ray_cmd::{BuildFlags, Geometry, Index, Info, Listed, Place, Recording};
use ray_rules::Built;
use ray_status::{Status, has_unbuilt, info_at, is_deserialized};

/// V13 of a build: the least info that updates from what isn't built, or came by `deserialize`. (The
/// valid usage of vkCmdBuildAccelerationStructuresKHR; own: `deserialize`.)
pub fn first_without_source(rec: &Recording, status: &Status, infos: &Listed<Info>) -> Option<Place>
    ensures { result ≡ first_part (lacks_built_source rec.now status.now) infos.now }
{
    part(position_of_without_source(rec, status, infos.as_slice()))
}

// The number of that info.
fn position_of_without_source(rec: &Recording, status: &Status, infos: &[Info]) -> Option<usize>
    requires { length infos.now ≤ 67108864 }
    ensures value { result ≡ position (lacks_built_source rec.now status.now) infos.now }
    ensures few { IfSome result (λ k. k < 2 ^ 32) }
{
    infos
        .iter()
        .position(|info| lacks_built_source(rec, status, info))
}

// Whether an info updates from what can't be updated from.
fn lacks_built_source(rec: &Recording, status: &Status, info: &Info) -> bool
    ensures { result ≡ lacks_built_source rec.now status.now info.now }
{
    match info.src {
        Some(id) => is_no_source(rec, status.built(id)),
        None => false,
    }
}

// Whether a structure can't be updated from: it isn't built, or came by `deserialize`.
fn is_no_source(rec: &Recording, built: Option<Built>) -> bool
    ensures { result ≡ is_no_source rec.now built }
{
    match built {
        Some(built) => is_deserialized(rec, &built),
        None => true,
    }
}

/// V14 of a build: the least info that updates what was built without `allow_update`. (The valid
/// usage of vkCmdBuildAccelerationStructuresKHR.)
pub fn first_forbidden(rec: &Recording, status: &Status, infos: &Listed<Info>) -> Option<Place>
    ensures { result ≡ first_part (updates_forbidden rec.now status.now) infos.now }
{
    part(position_of_forbidden(rec, status, infos.as_slice()))
}

// The number of that info.
fn position_of_forbidden(rec: &Recording, status: &Status, infos: &[Info]) -> Option<usize>
    requires { length infos.now ≤ 67108864 }
    ensures value { result ≡ position (updates_forbidden rec.now status.now) infos.now }
    ensures few { IfSome result (λ k. k < 2 ^ 32) }
{
    infos
        .iter()
        .position(|info| updates_forbidden(rec, status, info))
}

// Whether an info updates what doesn't allow it.
fn updates_forbidden(rec: &Recording, status: &Status, info: &Info) -> bool
    ensures { result ≡ updates_forbidden rec.now status.now info.now }
{
    match info.src {
        Some(id) => forbids_update(info_at(rec, status, id)),
        None => false,
    }
}

// Whether an info, where there is one, is without `allow_update`.
fn forbids_update(info: Option<&Info>) -> bool
    ensures { result ≡ forbids_update (option_copied info.entry) }
{
    match info {
        Some(info) => !info.flags.contains(BuildFlags::ALLOW_UPDATE),
        None => false,
    }
}

/// V15 of a build: the least info that differs from its source in what an update may not change.
/// (The valid usage of vkCmdBuildAccelerationStructuresKHR.)
pub fn first_changed(rec: &Recording, status: &Status, infos: &Listed<Info>) -> Option<Place>
    ensures { result ≡ first_part (differs_from_source rec.now status.now) infos.now }
{
    part(position_of_changed(rec, status, infos.as_slice()))
}

// The number of that info.
fn position_of_changed(rec: &Recording, status: &Status, infos: &[Info]) -> Option<usize>
    requires { length infos.now ≤ 67108864 }
    ensures value { result ≡ position (differs_from_source rec.now status.now) infos.now }
    ensures few { IfSome result (λ k. k < 2 ^ 32) }
{
    infos
        .iter()
        .position(|info| differs_from_source(rec, status, info))
}

// Whether an info updates what it differs from.
fn differs_from_source(rec: &Recording, status: &Status, info: &Info) -> bool
    ensures { result ≡ differs_from_source rec.now status.now info.now }
{
    match info.src {
        Some(id) => differs_if(info, info_at(rec, status, id)),
        None => false,
    }
}

// Whether an info differs from its source, where there is one.
fn differs_if(info: &Info, source: Option<&Info>) -> bool
    ensures { result ≡ differs_if info.now (option_copied source.entry) }
{
    match source {
        Some(source) => differs_from(info, source),
        None => false,
    }
}

// Whether an info differs from the one that its source was built by, in what an update may not
// change.
fn differs_from(info: &Info, source: &Info) -> bool
    ensures { result ≡ differs_from info.now source.now }
{
    !(info.flags == source.flags
        && are_same_geometries(info.geometries.as_slice(), source.geometries.as_slice()))
}

// Whether two lists of geometries agree, each with that of its number.
fn are_same_geometries(some: &[Geometry], others: &[Geometry]) -> bool
    ensures { result ≡ are_same_geometries some.now others.now }
{
    some.len() == others.len() && all_same(some, others)
}

// Whether geometries of one number agree.
fn all_same(some: &[Geometry], others: &[Geometry]) -> bool
    ensures { result ≡ list_all is_same_pair (zip some.now others.now) }
{
    some.iter()
        .zip(others.iter())
        .all(|(one, other)| is_same_geometry(*one, *other))
}

// Whether two geometries agree in what an update may not change.
#[tactic(auto, unfolding(ray_rules::specs::Sources::is_same_geometry))]
fn is_same_geometry(one: Geometry, other: Geometry) -> bool
    ensures { result ≡ is_same_geometry one other }
{
    match (one, other) {
        (
            Geometry::Triangles {
                opaque,
                format,
                index,
                max_vertex,
                count,
                transform,
                ..
            },
            Geometry::Triangles {
                opaque: opaque2,
                format: format2,
                index: index2,
                max_vertex: max_vertex2,
                count: count2,
                transform: transform2,
                ..
            },
        ) => {
            is_same_bool(opaque, opaque2)
                && is_same_format(format, format2)
                && is_same_index(index, index2)
                && max_vertex == max_vertex2
                && count == count2
                && is_same_bool(transform.is_some(), transform2.is_some())
        }
        (
            Geometry::Boxes { opaque, count, .. },
            Geometry::Boxes {
                opaque: opaque2,
                count: count2,
                ..
            },
        ) => is_same_bool(opaque, opaque2) && count == count2,
        (Geometry::Instances { count, .. }, Geometry::Instances { count: count2, .. }) => {
            count == count2
        }
        _ => false,
    }
}

// Whether two truth values are the same.
fn is_same_bool(one: bool, other: bool) -> bool
    ensures { result ≡ is_same_bool one other }
{
    one == other
}

// Whether two formats are the same.
fn is_same_format(one: Format, other: Format) -> bool
    ensures { result ≡ is_same_format one other }
{
    one == other
}

// Whether two lists of indices, where there are any, are of one type.
fn is_same_index(one: Option<Index>, other: Option<Index>) -> bool
    ensures { result ≡ is_same_index one other }
{
    match (one, other) {
        (None, None) => true,
        (Some(one), Some(other)) => one.index_size == other.index_size,
        _ => false,
    }
}

/// V17 of a build: the least info that may refer to a structure that isn't built. (Own; the valid
/// usage of the instances of vkCmdBuildAccelerationStructuresKHR.)
pub fn first_with_unbuilt(status: &Status, infos: &Listed<Info>) -> Option<Place>
    ensures { result ≡ first_part (uses_unbuilt status.now) infos.now }
{
    part(position_of_with_unbuilt(status, infos.as_slice()))
}

// The number of that info.
fn position_of_with_unbuilt(status: &Status, infos: &[Info]) -> Option<usize>
    requires { length infos.now ≤ 67108864 }
    ensures value { result ≡ position (uses_unbuilt status.now) infos.now }
    ensures few { IfSome result (λ k. k < 2 ^ 32) }
{
    infos.iter().position(|info| uses_unbuilt(status, info))
}

// Whether an info may refer to a structure that isn't built.
fn uses_unbuilt(status: &Status, info: &Info) -> bool
    ensures { result ≡ uses_unbuilt status.now info.now }
{
    has_unbuilt(status, info.uses.as_slice())
}
