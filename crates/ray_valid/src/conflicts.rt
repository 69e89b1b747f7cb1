ghost use Rattle.std.specs.Prelude.{◌≡◌, ◌<◌, ◌≤◌, ◌^◌, [], IfOk, IfSome, length, map, option_map};
ghost use Rattle.ray_cmd.specs.declared.place.Place.TheVariants.{Part};
ghost use Rattle.ray_rules.specs.Conflicts.{first_conflict, first_region_conflict, source_of, sources_in, target_of, v16};

use crate::place::{part, whole};
use crate::seen::Seen;
use ray_cmd::{Command, Info, Place, Region};
use ray_ranges::{Range, first_meeting};
use ray_status::{meets, range};
use std::alloc::{AllocError as NoMemory, Global};

// V16: pieces of one command conflict.
#[tactic(auto, unfolding(ray_rules::specs::Conflicts::v16))]
pub(crate) fn v16(alloc: Global, command: &Command) -> Result<Option<Place>, NoMemory>
    ensures { IfOk result (λ place. place ≡ v16 command.now) }
{
    match command {
        Command::Build { infos } => Ok(part(first_conflict(alloc, infos.as_slice())?)),
        Command::Copy { src, dst, regions } => {
            first_region_conflict(alloc, *src, *dst, regions.as_slice())
        }
        Command::Trace {
            rays,
            count,
            hits,
            ..
        } => {
            let count = u128::from(*count);
            Ok(whole(meets(
                range(rays.buffer, rays.offset, 40 * count),
                range(hits.buffer, hits.offset, 80 * count),
            )))
        }
        _ => Ok(None),
    }
}

// The number of the first info that conflicts with an earlier one. It takes n log n steps.
fn first_conflict(alloc: Global, infos: &[Info]) -> Result<Option<usize>, NoMemory>
    requires { length infos.now ≤ 67108864 }
    ensures value { IfOk result (λ first. first ≡ first_conflict [] 0 infos.now) }
    ensures few { IfOk result (λ first. IfSome first (λ k. k < 2 ^ 32)) }
{
    let mut seen = Seen::new(alloc);
    for k in 0..infos.len() {
        let info = &infos[k];
        if seen.is_met(info) {
            return Ok(Some(k));
        }
        seen.add(info)?;
    }
    Ok(None)
}

// The first region whose destination overlaps that of an earlier one, or the source of any one.
fn first_region_conflict(
    alloc: Global,
    src: u32,
    dst: u32,
    regions: &[Region],
) -> Result<Option<Place>, NoMemory>
    requires { length regions.now ≤ 67108864 }
    ensures { IfOk result (λ place. place ≡ option_map Part (first_region_conflict src dst regions.now)) }
{
    let targets = targets(alloc, regions)?;
    let sources = sources_in(alloc, src, dst, regions)?;
    let first = first_meeting(alloc, targets.as_slice(), sources.as_slice())?;
    Ok(part(first))
}

// The bytes that regions write of their destination.
fn targets(alloc: Global, regions: &[Region]) -> Result<Vec<Range>, NoMemory>
    ensures { IfOk result (λ ranges. ranges.items ≡ map target_of regions.now) }
{
    regions
        .iter()
        .map(|region| target_of(*region))
        .collect(alloc)
}

// The sources of regions, where they stand in the buffer that is written.
fn sources_in(alloc: Global, src: u32, dst: u32, regions: &[Region]) -> Result<Vec<Range>, NoMemory>
    ensures { IfOk result (λ ranges. ranges.items ≡ sources_in src dst regions.now) }
{
    if src == dst {
        sources(alloc, regions)
    } else {
        Ok(Vec::new(alloc))
    }
}

// The bytes that regions read of their source.
fn sources(alloc: Global, regions: &[Region]) -> Result<Vec<Range>, NoMemory>
    ensures { IfOk result (λ ranges. ranges.items ≡ map source_of regions.now) }
{
    regions
        .iter()
        .map(|region| source_of(*region))
        .collect(alloc)
}

// The bytes that a region writes of its destination.
fn target_of(region: Region) -> Range
    ensures { result ≡ target_of region }
{
    let from = u128::from(region.dst_offset);
    Range {
        from,
        end: from + u128::from(region.size),
    }
}

// The bytes that a region reads of its source.
fn source_of(region: Region) -> Range
    ensures { result ≡ source_of region }
{
    let from = u128::from(region.src_offset);
    Range {
        from,
        end: from + u128::from(region.size),
    }
}
