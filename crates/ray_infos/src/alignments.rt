ghost use Rattle.std.specs.Prelude.{◌≡◌, ◌<◌, ◌≤◌, ◌^◌, IfSome, length};
ghost use Rattle.std.specs.List.{list_any, position};
ghost use Rattle.ray_rules.specs.Places.{first_part};
ghost use Rattle.ray_rules.specs.Spans.{info_misses, input_misses, offset_misses, transform_misses};

use crate::first::part;
use ray_bytes::Format;
use ray_cmd::{Geometry, Index, Info, Listed, Place, Spot};
use ray_status::misses;

/// V5 of a build: the least info of which a place misses its alignment. (The valid usage of
/// VkAccelerationStructureBuildGeometryInfoKHR and of its geometries; own: the numbers.)
pub fn first_misaligned(infos: &Listed<Info>) -> Option<Place>
    ensures { result ≡ first_part info_misses infos.now }
{
    part(position_of_misaligned(infos.as_slice()))
}

// The number of that info.
fn position_of_misaligned(infos: &[Info]) -> Option<usize>
    requires { length infos.now ≤ 67108864 }
    ensures value { result ≡ position info_misses infos.now }
    ensures few { IfSome result (λ k. k < 2 ^ 32) }
{
    infos.iter().position(|info| info_misses(info))
}

// Whether a place of an info misses its alignment.
fn info_misses(info: &Info) -> bool
    ensures { result ≡ info_misses info.now }
{
    misses(256, info.scratch.offset) || an_input_misses(info.geometries.as_slice())
}

// Whether a place of one of these geometries misses its alignment.
fn an_input_misses(geometries: &[Geometry]) -> bool
    ensures { result ≡ list_any input_misses geometries.now }
{
    geometries.iter().any(|geometry| input_misses(geometry))
}

// Whether a place of a geometry misses its alignment.
fn input_misses(geometry: &Geometry) -> bool
    ensures { result ≡ input_misses geometry.now }
{
    match geometry {
        Geometry::Triangles {
            format,
            vertex,
            stride,
            index,
            transform,
            primitive_offset,
            transform_offset,
            ..
        } => {
            let component = u64::from(format.component_size());
            misses(component, vertex.offset)
                || misses(component, u64::from(*stride))
                || offset_misses(*index, *format, *primitive_offset)
                || transform_misses(*transform, *transform_offset)
        }
        Geometry::Boxes {
            content,
            stride,
            primitive_offset,
            ..
        } => {
            misses(8, content.offset)
                || misses(8, u64::from(*primitive_offset))
                || misses(8, u64::from(*stride))
        }
        Geometry::Instances {
            content,
            primitive_offset,
            ..
        } => misses(16, content.offset) || misses(16, u64::from(*primitive_offset)),
    }
}

// Whether indices, or without indices vertices, miss the alignment of what the offset is added to.
fn offset_misses(index: Option<Index>, format: Format, primitive_offset: u32) -> bool
    ensures { result ≡ offset_misses index format primitive_offset }
{
    let offset = u64::from(primitive_offset);
    match index {
        Some(index) => {
            let size = u64::from(index.index_size);
            misses(size, offset) || misses(size, index.offset)
        }
        None => misses(u64::from(format.component_size()), offset),
    }
}

// Whether a transform, where there is one, misses its alignment.
fn transform_misses(transform: Option<Spot>, transform_offset: u32) -> bool
    ensures { result ≡ transform_misses transform transform_offset }
{
    match transform {
        Some(spot) => misses(16, spot.offset) || misses(16, u64::from(transform_offset)),
        None => false,
    }
}
