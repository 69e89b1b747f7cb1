ghost use Rattle.std.specs.Prelude.{◌≡◌, option_copied, slice_get};
ghost use Rattle.std.specs.Option.{option_and_then};
ghost use Rattle.ray_causes.specs.Geometries.{geometry_at, info_at};
ghost use Rattle.ray_causes.specs.Ranges.{info_range, input_at, own_range, range_needed};
ghost use Rattle.ray_causes.specs.Ranges.{region_range, side_of};

use crate::member::{Member, Name};
use crate::naming::{at_data, at_dst, at_rays_or_hits, at_size, at_src};
use ray_cmd::{Command, Geometry, Info, Region};
use ray_rules::ByteRange;
use ray_status::{inputs_needed, range, scratch_range};

// The bytes that a member of a command needs to be whole within a buffer.
#[tactic(auto, unfolding(crate::specs::Ranges::range_needed))]
pub(crate) fn range_needed(command: &Command, member: Member) -> Option<ByteRange>
    ensures { result ≡ range_needed command.now member }
{
    match member {
        Member::Own(name) => own_range(command, name),
        Member::Region(number, name) => region_range(command, number, name),
        Member::Info(number, name) => info_range(command, number, name),
        Member::Geometry(info, number, name) => match geometry_at(command, info, number) {
            Some(geometry) => input_at(name, geometry),
            None => None,
        },
        _ => None,
    }
}

// What a member of the command itself needs.
#[tactic(auto, unfolding(crate::specs::Ranges::own_range))]
fn own_range(command: &Command, name: Name) -> Option<ByteRange>
    ensures { result ≡ own_range command.now name }
{
    match command {
        Command::Read {
            buffer,
            offset,
            size,
            ..
        } => at_size(name, range(*buffer, *offset, u128::from(*size))),
        Command::Update {
            buffer,
            offset,
            content,
        } => at_data(
            name,
            range(*buffer, *offset, content.as_slice().len() as u128),
        ),
        Command::Fill {
            buffer,
            offset,
            size,
            ..
        } => at_size(name, range(*buffer, *offset, u128::from(*size))),
        Command::Serialize { dst, .. } => {
            at_dst(name, range(dst.buffer, dst.offset, u128::from(dst.size)))
        }
        Command::Deserialize { src, .. } => {
            at_src(name, range(src.buffer, src.offset, u128::from(src.size)))
        }
        Command::Property {
            structures,
            dst,
            ..
        } => at_dst(
            name,
            range(
                dst.buffer,
                dst.offset,
                8 * structures.as_slice().len() as u128,
            ),
        ),
        Command::Trace {
            rays,
            count,
            hits,
            ..
        } => {
            let count = u128::from(*count);
            at_rays_or_hits(
                name,
                range(rays.buffer, rays.offset, 40 * count),
                range(hits.buffer, hits.offset, 80 * count),
            )
        }
        _ => None,
    }
}

// What a member of a region needs.
fn region_range(command: &Command, number: u32, name: Name) -> Option<ByteRange>
    ensures { result ≡ region_range command.now number name }
{
    match command {
        Command::Copy { src, dst, regions } => {
            region_side(*src, *dst, regions.as_slice(), number, name)
        }
        _ => None,
    }
}

// One side of a region of this number.
fn region_side(src: u32, dst: u32, regions: &[Region], number: u32, name: Name) -> Option<ByteRange>
    ensures { result ≡ option_and_then (side_of src dst name) (slice_get regions.now number) }
{
    match regions.get(number as usize) {
        Some(region) => side_of(src, dst, name, *region),
        None => None,
    }
}

// One side of a region.
fn side_of(src: u32, dst: u32, name: Name, region: Region) -> Option<ByteRange>
    ensures { result ≡ side_of src dst name region }
{
    match name {
        Name::SrcOffset => Some(range(src, region.src_offset, u128::from(region.size))),
        Name::DstOffset => Some(range(dst, region.dst_offset, u128::from(region.size))),
        _ => None,
    }
}

// What a member of an info needs.
fn info_range(command: &Command, number: u32, name: Name) -> Option<ByteRange>
    ensures { result ≡ info_range command.now number name }
{
    match name {
        Name::Scratch => match info_at(command, number) {
            Some(info) => Some(scratch_range(info)),
            None => None,
        },
        _ => None,
    }
}

// The input of a geometry at a name.
fn input_at(name: Name, geometry: &Geometry) -> Option<ByteRange>
    ensures { result ≡ input_at name geometry.now }
{
    let [first, second, third] = inputs_needed(geometry);
    match name {
        Name::Vertex => first,
        Name::Data => first,
        Name::Index => second,
        Name::Transform => third,
        _ => None,
    }
}

/// Info number `number` of a build. Own.
pub fn info_at(command: &Command, number: u32) -> Option<&Info>
    ensures { option_copied result ≡ info_at command.now number }
{
    match command {
        Command::Build { infos } => infos.as_slice().get(number as usize),
        _ => None,
    }
}

// Geometry number `number` of an info.
pub(crate) fn geometry_at(command: &Command, info: u32, number: u32) -> Option<&Geometry>
    ensures { option_copied result ≡ geometry_at command.now info number }
{
    match info_at(command, info) {
        Some(info) => info.geometries.as_slice().get(number as usize),
        None => None,
    }
}
