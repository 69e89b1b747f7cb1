ghost use Rattle.std.specs.Prelude.{◌≡◌, ◌<◌, ◌≤◌, ◌^◌, IfSome, length};
ghost use Rattle.std.specs.List.{position};
ghost use Rattle.ray_rules.specs.Places.{first_part};
ghost use Rattle.ray_rules.specs.Spans.{is_empty, is_no_fill, is_no_update, reaches_out, record_size, region_reaches_out, v4, v5, v12, v31};

use crate::place::{part, whole};
use ray_cmd::{Command, Listed, Place, ReadForm, Region};
use ray_infos::{first_misaligned, first_reaching_out, first_with_short_scratch};
use ray_status::{Status, misses, range};

// V4: a byte range isn't whole within its buffer.
#[tactic(auto, unfolding(ray_rules::specs::Spans::v4))]
pub(crate) fn v4(status: &Status, command: &Command) -> Option<Place>
    ensures { result ≡ v4 status.now command.now }
{
    match command {
        Command::Read {
            buffer,
            offset,
            size,
            ..
        } => whole(reaches_out(status, *buffer, *offset, u128::from(*size))),
        Command::Update {
            buffer,
            offset,
            content,
        } => whole(reaches_out(status, *buffer, *offset, content.as_slice().len() as u128)),
        Command::Fill {
            buffer,
            offset,
            size,
            ..
        } => whole(reaches_out(status, *buffer, *offset, u128::from(*size))),
        Command::Copy { src, dst, regions } => first_region_out(status, *src, *dst, regions),
        Command::Build { infos } => first_reaching_out(status, infos),
        Command::Serialize { dst, .. } => whole(reaches_out(
            status,
            dst.buffer,
            dst.offset,
            u128::from(dst.size),
        )),
        Command::Deserialize { src, .. } => whole(reaches_out(
            status,
            src.buffer,
            src.offset,
            u128::from(src.size),
        )),
        Command::Property {
            structures,
            dst,
            ..
        } => whole(reaches_out(
            status,
            dst.buffer,
            dst.offset,
            8 * structures.as_slice().len() as u128,
        )),
        Command::Trace {
            rays,
            count,
            hits,
            ..
        } => {
            let count = u128::from(*count);
            whole(
                reaches_out(status, rays.buffer, rays.offset, 40 * count)
                    || reaches_out(status, hits.buffer, hits.offset, 80 * count),
            )
        }
        Command::Buffer { .. }
        | Command::Structure { .. }
        | Command::Destroy { .. }
        | Command::Sizes { .. }
        | Command::Begin
        | Command::End
        | Command::Submit
        | Command::Wait
        | Command::CopyStructure { .. }
        | Command::Barrier { .. } => None,
    }
}

// Whether bytes of a buffer aren't whole within it.
fn reaches_out(status: &Status, buffer: u32, from: u64, size: u128) -> bool
    ensures { result ≡ reaches_out status.now buffer from size }
{
    status.is_outside(range(buffer, from, size))
}

// The first region of which the source or the destination isn't whole within its buffer.
fn first_region_out(status: &Status, src: u32, dst: u32, regions: &Listed<Region>) -> Option<Place>
    ensures { result ≡ first_part (region_reaches_out status.now src dst) regions.now }
{
    part(position_of_region_out(status, src, dst, regions.as_slice()))
}

// The number of that region.
fn position_of_region_out(status: &Status, src: u32, dst: u32, regions: &[Region]) -> Option<usize>
    requires { length regions.now ≤ 67108864 }
    ensures value { result ≡ position (region_reaches_out status.now src dst) regions.now }
    ensures few { IfSome result (λ k. k < 2 ^ 32) }
{
    regions
        .iter()
        .position(|region| region_reaches_out(status, src, dst, *region))
}

// Whether the source or the destination of a region isn't whole within its buffer.
fn region_reaches_out(status: &Status, src: u32, dst: u32, region: Region) -> bool
    ensures { result ≡ region_reaches_out status.now src dst region }
{
    let size = u128::from(region.size);
    reaches_out(status, src, region.src_offset, size)
        || reaches_out(status, dst, region.dst_offset, size)
}

// V5: an alignment is missed.
#[tactic(auto, unfolding(ray_rules::specs::Spans::v5))]
pub(crate) fn v5(command: &Command) -> Option<Place>
    ensures { result ≡ v5 command.now }
{
    match command {
        Command::Build { infos } => first_misaligned(infos),
        Command::Serialize { dst, .. } => whole(misses(256, dst.offset)),
        Command::Deserialize { src, .. } => whole(misses(256, src.offset)),
        Command::Property { dst, .. } => whole(misses(8, dst.offset)),
        Command::Trace { rays, hits, .. } => {
            whole(misses(8, rays.offset) || misses(8, hits.offset))
        }
        _ => None,
    }
}

// V12: the scratch range isn't within its buffer.
#[tactic(auto, unfolding(ray_rules::specs::Spans::v12))]
pub(crate) fn v12(status: &Status, command: &Command) -> Option<Place>
    ensures { result ≡ v12 status.now command.now }
{
    match command {
        Command::Build { infos } => first_with_short_scratch(status, infos),
        _ => None,
    }
}

// V31: `update`, `fill`: offset or size not a multiple of 4, or size 0; `update` above 65,536 bytes;
// a region or a `read` of size 0; `read` as `u64` with a size not a multiple of 8, as `hits` not of
// 80.
#[tactic(auto, unfolding(ray_rules::specs::Spans::v31))]
pub(crate) fn v31(command: &Command) -> Option<Place>
    ensures { result ≡ v31 command.now }
{
    match command {
        Command::Read { size, form, .. } => whole(*size == 0 || misses(record_size(*form), *size)),
        Command::Update {
            offset,
            content,
            ..
        } => whole(is_no_update(*offset, content.as_slice().len())),
        Command::Fill { offset, size, .. } => whole(is_no_fill(*offset, *size)),
        Command::Copy { regions, .. } => first_empty(regions),
        _ => None,
    }
}

// Whether an update writes no words of four bytes, or more than 65,536 bytes.
fn is_no_update(offset: u64, size: usize) -> bool
    ensures { result ≡ is_no_update offset size }
{
    misses(4, offset) || misses(4, size as u64) || size == 0 || 65536 < size
}

// Whether a fill writes no words of four bytes.
fn is_no_fill(offset: u64, size: u64) -> bool
    ensures { result ≡ is_no_fill offset size }
{
    misses(4, offset) || misses(4, size) || size == 0
}

// The size of a record of a form.
fn record_size(form: ReadForm) -> u64
    ensures { result ≡ record_size form }
{
    match form {
        ReadForm::Hex => 1,
        ReadForm::U64 => 8,
        ReadForm::Hits => 80,
    }
}

// The first region that has no bytes.
fn first_empty(regions: &Listed<Region>) -> Option<Place>
    ensures { result ≡ first_part is_empty regions.now }
{
    part(position_of_empty(regions.as_slice()))
}

// The number of that region.
fn position_of_empty(regions: &[Region]) -> Option<usize>
    requires { length regions.now ≤ 67108864 }
    ensures value { result ≡ position is_empty regions.now }
    ensures few { IfSome result (λ k. k < 2 ^ 32) }
{
    regions.iter().position(|region| is_empty(*region))
}

// Whether a region has no bytes.
fn is_empty(region: Region) -> bool
    ensures { result ≡ is_empty region }
{
    region.size == 0
}
