ghost use Rattle.std.specs.Prelude.{◌≡◌, ◌==◌, ℕ, IfSome, false};
ghost use Rattle.std.specs.List.{list_any};
ghost use Rattle.std.specs.Option.{option_copied, option_map_or};
ghost use Rattle.ray_causes.specs.Geometries.{info_at};
ghost use Rattle.ray_rules.specs.Conflicts.{is_source, reads_structure};
ghost use Rattle.ray_conflicts.specs.Conflicts.{ArePartsOf};
ghost use Rattle.ray_conflicts.specs.Parts.{conflicts_by, conflicts_if, infos_conflict};

use crate::conflict::{Conflict, Two, Way};
use ray_causes::info_at;
use ray_cmd::{Command, Info};
use ray_status::{meets, scratch_range};

// The ways in the order in which they are told.
const WAYS: &[Way] = &[Way::Same, Way::Source, Way::Use, Way::Read, Way::Scratch];

// The first earlier info with which the info of a number conflicts.
pub(crate) fn earlier_info(command: &Command, part: u32) -> Option<Conflict>
    ensures { IfSome result (λ conflict. ArePartsOf command.now conflict) }
{
    for other in 0..part {
        let two = Two { part, other };
        if let Some(conflict) = way_of(command, two, WAYS) {
            return Some(conflict);
        }
    }
    None
}

// The first way in which two infos conflict.
fn way_of(command: &Command, two: Two, ways: &[Way]) -> Option<Conflict>
    ensures { IfSome result (λ conflict. ArePartsOf command.now conflict) }
{
    for way in ways {
        let way = *way;
        if infos_conflict(command, two, way) {
            return Some(Conflict::Infos(two, way));
        }
    }
    None
}

// Whether an info conflicts in a way with an earlier one.
fn infos_conflict(command: &Command, two: Two, way: Way) -> bool
    ensures { result ≡ infos_conflict command.now two way }
{
    two.other < two.part && are_in_conflict(command, two, way)
}

// The same of any two.
fn are_in_conflict(command: &Command, two: Two, way: Way) -> bool
    ensures { result ≡ option_map_or (conflicts_if way (info_at command.now two.other))
        (info_at command.now two.part) false }
{
    match info_at(command, two.part) {
        Some(info) => conflicts_if(way, info_at(command, two.other), info),
        None => false,
    }
}

// Whether an info conflicts in a way with another, where that is there.
fn conflicts_if(way: Way, other: Option<&Info>, info: &Info) -> bool
    ensures { result ≡ conflicts_if way (option_copied other.entry) info.now }
{
    match other {
        Some(other) => conflicts_by(way, info, other),
        None => false,
    }
}

// Whether an info conflicts in a way with another.
fn conflicts_by(way: Way, info: &Info, other: &Info) -> bool
    ensures { result ≡ conflicts_by way info.now other.now }
{
    match way {
        Way::Same => info.dst == other.dst,
        Way::Source => is_source(info.src, other.dst),
        Way::Use => has_id(info.uses.as_slice(), other.dst),
        Way::Read => reads_structure(other, info.dst),
        Way::Scratch => meets(scratch_range(info), scratch_range(other)),
    }
}

// Whether an info reads the structure of an id.
fn reads_structure(info: &Info, id: u32) -> bool
    ensures { result ≡ reads_structure info.now id }
{
    is_source(info.src, id) || has_id(info.uses.as_slice(), id)
}

// Whether the source of an update, where there is one, is the structure of an id.
fn is_source(src: Option<u32>, id: u32) -> bool
    ensures { result ≡ is_source src id }
{
    match src {
        Some(src) => src == id,
        None => false,
    }
}

// Whether an id is one of these.
fn has_id(ids: &[u32], id: u32) -> bool
    ensures { result ≡ list_any (λ (u : ℕ). u == id) ids.now }
{
    ids.iter().any(|u| *u == id)
}
