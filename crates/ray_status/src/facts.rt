ghost use Rattle.std.specs.Prelude.{◌≡◌};
ghost use Rattle.std.specs.List.{list_any};
ghost use Rattle.std.specs.Option.{option_copied};
ghost use Rattle.ray_rules.specs.Names.{lacks_buffer, lacks_structure};
ghost use Rattle.ray_rules.specs.Shapes.{uses_wrongly};
ghost use Rattle.ray_rules.specs.Sources.{info_at, is_deserialized_at, is_unbuilt};
ghost use Rattle.ray_rules.specs.Spans.{misses};
ghost use Rattle.ray_rules.specs.Structures.{differ_in_kind, is_bottom, is_bottom_at, is_smaller, is_top, is_top_at, made_size};

use crate::origins::{info_of, is_deserialized};
use crate::status::Status;
use ray_cmd::{Info, Recording, StructureKind};

/// Whether no live buffer has an id. Own.
pub fn lacks_buffer(status: &Status, id: u32) -> bool
    ensures { result ≡ lacks_buffer status.now id }
{
    status.buffer(id).is_none()
}

/// Whether no live structure has an id. Own.
pub fn lacks_structure(status: &Status, id: u32) -> bool
    ensures { result ≡ lacks_structure status.now id }
{
    status.structure(id).is_none()
}

/// Whether one of these ids is that of no live structure. Own.
pub fn lacks_a_structure(status: &Status, ids: &[u32]) -> bool
    ensures { result ≡ list_any (lacks_structure status.now) ids.now }
{
    ids.iter().any(|id| lacks_structure(status, *id))
}

/// The size with which the structure of an id was made, in bytes: 0 where it isn't live. Own.
pub fn made_size(status: &Status, id: u32) -> u64
    ensures { result ≡ made_size status.now id }
{
    match status.structure(id) {
        Some(structure) => structure.size,
        None => 0,
    }
}

/// Whether one structure is smaller than another. Own.
pub fn is_smaller(status: &Status, dst: u32, src: u32) -> bool
    ensures { result ≡ is_smaller status.now dst src }
{
    made_size(status, dst) < made_size(status, src)
}

/// Whether a kind is that of bottom structures. Own.
pub fn is_bottom(kind: StructureKind) -> bool
    ensures { result ≡ is_bottom kind }
{
    matches!(kind, StructureKind::Bottom)
}

/// Whether a kind is that of top structures. Own.
pub fn is_top(kind: StructureKind) -> bool
    ensures { result ≡ is_top kind }
{
    matches!(kind, StructureKind::Top)
}

/// Whether the structure of an id is live and a bottom. Own.
pub fn is_bottom_at(status: &Status, id: u32) -> bool
    ensures { result ≡ is_bottom_at status.now id }
{
    match status.structure(id) {
        Some(structure) => is_bottom(structure.kind),
        None => false,
    }
}

/// Whether the structure of an id is live and a top. Own.
pub fn is_top_at(status: &Status, id: u32) -> bool
    ensures { result ≡ is_top_at status.now id }
{
    match status.structure(id) {
        Some(structure) => is_top(structure.kind),
        None => false,
    }
}

/// Whether one of these ids is that of a live top. Own.
pub fn has_top(status: &Status, ids: &[u32]) -> bool
    ensures { result ≡ list_any (is_top_at status.now) ids.now }
{
    ids.iter().any(|id| is_top_at(status, *id))
}

/// Whether one of two structures is a bottom and the other a top. Own.
pub fn differ_in_kind(status: &Status, a: u32, b: u32) -> bool
    ensures { result ≡ differ_in_kind status.now a b }
{
    (is_bottom_at(status, a) && is_top_at(status, b))
        || (is_top_at(status, a) && is_bottom_at(status, b))
}

/// Whether `uses` are wrong for a destination: one of them is a top, or there are any for a bottom.
/// Own.
pub fn uses_wrongly(status: &Status, dst: u32, uses: &[u32]) -> bool
    ensures { result ≡ uses_wrongly status.now dst uses.now }
{
    has_top(status, uses) || (is_bottom_at(status, dst) && uses.len() != 0)
}

/// Whether the structure of an id isn't built. Own.
pub fn is_unbuilt(status: &Status, id: u32) -> bool
    ensures { result ≡ is_unbuilt status.now id }
{
    status.built(id).is_none()
}

/// Whether one of these ids is that of a structure that isn't built. Own.
pub fn has_unbuilt(status: &Status, ids: &[u32]) -> bool
    ensures { result ≡ list_any (is_unbuilt status.now) ids.now }
{
    ids.iter().any(|id| is_unbuilt(status, *id))
}

/// The info by which the structure of an id was last built or updated. Own.
pub fn info_at<'a>(rec: &'a Recording, status: &Status, id: u32) -> Option<&'a Info>
    ensures { option_copied result ≡ info_at rec.now status.now id }
{
    match status.built(id) {
        Some(built) => info_of(rec, &built),
        None => None,
    }
}

/// Whether the contents of the structure of an id came by `deserialize`. Own.
pub fn is_deserialized_at(rec: &Recording, status: &Status, id: u32) -> bool
    ensures { result ≡ is_deserialized_at rec.now status.now id }
{
    match status.built(id) {
        Some(built) => is_deserialized(rec, &built),
        None => false,
    }
}

/// Whether a number is no multiple of another. Own.
pub fn misses(size: u64, n: u64) -> bool
    ensures { result ≡ misses size n }
{
    !n.is_multiple_of(size)
}
