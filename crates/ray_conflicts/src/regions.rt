ghost use Rattle.std.specs.Prelude.{◌≡◌, ◌≤◌, IfSome, false};
ghost use Rattle.std.specs.Option.{option_map_or};
ghost use Rattle.ray_conflicts.specs.Conflicts.{ArePartsOf};
ghost use Rattle.ray_conflicts.specs.Parts.{hits_conflict, is_within, region_at, source_conflicts};
ghost use Rattle.ray_conflicts.specs.Parts.{source_if, source_meets, targets_conflict};
ghost use Rattle.ray_conflicts.specs.Parts.{targets_if, targets_meet};

use crate::conflict::{Conflict, Two};
use ray_cmd::{Command, Region};
use ray_status::{meets, range};

// The first earlier region with whose destination that of a region of a number conflicts, and else
// the first region with whose source it does.
pub(crate) fn other_region(command: &Command, part: u32, count: usize) -> Option<Conflict>
    requires { count ≤ 67108864 }
    ensures { IfSome result (λ conflict. ArePartsOf command.now conflict) }
{
    for other in 0..count {
        let other = other as u32;
        if let Some(conflict) = regions_conflict(command, Two { part, other }) {
            return Some(conflict);
        }
    }
    None
}

// That two regions conflict.
fn regions_conflict(command: &Command, two: Two) -> Option<Conflict>
    ensures { IfSome result (λ conflict. ArePartsOf command.now conflict) }
{
    if targets_conflict(command, two) {
        Some(Conflict::Targets(two))
    } else {
        source_conflict(command, two)
    }
}

// That the destination of a region meets the source of another.
fn source_conflict(command: &Command, two: Two) -> Option<Conflict>
    ensures { IfSome result (λ conflict. ArePartsOf command.now conflict) }
{
    if source_conflicts(command, two) {
        Some(Conflict::Source(two))
    } else {
        None
    }
}

// Whether the bytes that a region writes meet those that an earlier one writes.
fn targets_conflict(command: &Command, two: Two) -> bool
    ensures { result ≡ targets_conflict command.now two }
{
    two.other < two.part && targets_of(command, two)
}

// The same of any two.
fn targets_of(command: &Command, two: Two) -> bool
    ensures { result ≡ option_map_or (targets_if (region_at command.now two.other))
        (region_at command.now two.part) false }
{
    match region_at(command, two.part) {
        Some(region) => targets_if(region_at(command, two.other), region),
        None => false,
    }
}

// The same of a region and another, where that is there.
fn targets_if(other: Option<Region>, region: Region) -> bool
    ensures { result ≡ targets_if other region }
{
    match other {
        Some(other) => targets_meet(region, other),
        None => false,
    }
}

// Whether the bytes that two regions write of a buffer meet.
fn targets_meet(region: Region, other: Region) -> bool
    ensures { result ≡ targets_meet region other }
{
    meets(
        range(0, region.dst_offset, u128::from(region.size)),
        range(0, other.dst_offset, u128::from(other.size)),
    )
}

// Whether the bytes that a region writes of a buffer meet those that another reads of it.
fn source_conflicts(command: &Command, two: Two) -> bool
    ensures { result ≡ source_conflicts command.now two }
{
    is_within(command) && source_of(command, two)
}

// The same wherever they read.
fn source_of(command: &Command, two: Two) -> bool
    ensures { result ≡ option_map_or (source_if (region_at command.now two.other))
        (region_at command.now two.part) false }
{
    match region_at(command, two.part) {
        Some(region) => source_if(region_at(command, two.other), region),
        None => false,
    }
}

// The same of a region and another, where that is there.
fn source_if(other: Option<Region>, region: Region) -> bool
    ensures { result ≡ source_if other region }
{
    match other {
        Some(other) => source_meets(region, other),
        None => false,
    }
}

// Whether the bytes that a region writes meet those that another reads.
fn source_meets(region: Region, other: Region) -> bool
    ensures { result ≡ source_meets region other }
{
    meets(
        range(0, region.dst_offset, u128::from(region.size)),
        range(0, other.src_offset, u128::from(other.size)),
    )
}

// Whether a copy is within one buffer.
fn is_within(command: &Command) -> bool
    ensures { result ≡ is_within command.now }
{
    match command {
        Command::Copy { src, dst, .. } => src == dst,
        _ => false,
    }
}

// The region of a number.
fn region_at(command: &Command, number: u32) -> Option<Region>
    ensures { result ≡ region_at command.now number }
{
    match command {
        Command::Copy { regions, .. } => regions.as_slice().get(number as usize).copied(),
        _ => None,
    }
}

// Whether the rays and the hits of a trace share bytes.
pub(crate) fn hits_conflict(command: &Command) -> bool
    ensures { result ≡ hits_conflict command.now }
{
    match command {
        Command::Trace {
            rays,
            count,
            hits,
            ..
        } => {
            let count = u128::from(*count);
            meets(
                range(rays.buffer, rays.offset, 40 * count),
                range(hits.buffer, hits.offset, 80 * count),
            )
        }
        _ => false,
    }
}
