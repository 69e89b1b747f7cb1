ghost use Rattle.std.specs.Prelude.{◌≡◌, ◌<◌, ◌≤◌, ◌*◌, ◌^◌, ◌==◌, None, Some, if◌then◌else◌, length, option_map, All};
ghost use Rattle.ray_rules.specs.Ranges.{boxes_range, count_of, cut, index_range, inputs_needed};
ghost use Rattle.ray_rules.specs.Ranges.{inputs_read, inputs_with, instances_range, named_range};
ghost use Rattle.ray_rules.specs.Ranges.{primitives, range, transform_range, vertex_range};
ghost use Rattle.ray_rules.specs.Ranges.{vertices_by, vertices_needed, vertices_range};
ghost use Rattle.ray_rules.specs.Ranges.{vertices_read};
ghost use Rattle.ray_status.specs.Limits.{Fits, FitsIf};

use crate::status::Status;
use ray_bytes::Format;
use ray_cmd::{Geometry, Index, Spot};
use ray_rules::ByteRange;

/// So many bytes of a buffer from an offset on. Own.
pub fn range(buffer: u32, from: u64, size: u128) -> ByteRange
    ensures { result ≡ range buffer from size }
{
    ByteRange {
        buffer,
        from: u128::from(from),
        size,
    }
}

/// How many primitives a geometry has.
pub fn count_of(geometry: &Geometry) -> u32
    ensures { result ≡ count_of geometry.now }
{
    match geometry {
        Geometry::Triangles { count, .. } => *count,
        Geometry::Boxes { count, .. } => *count,
        Geometry::Instances { count, .. } => *count,
    }
}

/// How many primitives geometries have together.
pub fn primitives(geometries: &[Geometry]) -> u128
    ensures value { result ≡ primitives geometries.now }
    ensures counted { result ≤ length geometries.now * 2 ^ 32 }
    ensures limit { result < 2 ^ 100 }
{
    let mut total = 0;
    for geometry in geometries {
        total += u128::from(count_of(geometry));
    }
    total
}

/// What has to be there of what a geometry reads: vertices, boxes or instances; indices; the
/// transform. A geometry of no primitives needs nothing.
#[tactic(auto, unfolding(ray_rules::specs::Ranges::inputs_needed))]
pub fn inputs_needed(geometry: &Geometry) -> [Option<ByteRange>; 3]
    ensures { result ≡ inputs_needed geometry.now }
{
    inputs_with(geometry, vertices_needed(geometry))
}

/// What a geometry reads: vertices, boxes or instances; indices; the transform. A geometry of no
/// primitives reads nothing. Own.
#[tactic(auto, unfolding(ray_rules::specs::Ranges::inputs_read))]
pub fn inputs_read(status: &Status, geometry: &Geometry) -> [Option<ByteRange>; 3]
    ensures value { result ≡ inputs_read status.now.buffers geometry.now }
    ensures fits { All FitsIf result }
{
    inputs_with(geometry, vertices_read(status, geometry))
}

/// The bytes of a geometry, given its vertices: vertices, boxes or instances; indices; the
/// transform. A geometry of no primitives has none.
/// (VkAccelerationStructureBuildRangeInfoKHR)
#[tactic(auto, unfolding(ray_rules::specs::Ranges::inputs_with))]
pub fn inputs_with(geometry: &Geometry, vertices: Option<ByteRange>) -> [Option<ByteRange>; 3]
    ensures value { result ≡ inputs_with vertices geometry.now }
    ensures fits { FitsIf vertices → All FitsIf result }
{
    match *geometry {
        Geometry::Triangles {
            index,
            transform,
            count,
            primitive_offset,
            transform_offset,
            ..
        } => {
            if count == 0 {
                return [None, None, None];
            }
            [
                vertices,
                indices(index, primitive_offset, count),
                transform_of(transform, transform_offset),
            ]
        }
        Geometry::Boxes {
            content,
            stride,
            count,
            primitive_offset,
            ..
        } => [boxes(content, stride, count, primitive_offset), None, None],
        Geometry::Instances {
            content,
            count,
            primitive_offset,
        } => [instances(content, count, primitive_offset), None, None],
    }
}

// The boxes of a geometry, where it has any.
fn boxes(content: Spot, stride: u32, count: u32, primitive_offset: u32) -> Option<ByteRange>
    ensures fits { FitsIf result }
    ensures value { result ≡ (if count == 0 then None else Some (boxes_range content stride count primitive_offset)) }
{
    if count == 0 {
        return None;
    }
    Some(ByteRange {
        buffer: content.buffer,
        from: u128::from(content.offset) + u128::from(primitive_offset),
        size: u128::from(count - 1) * u128::from(stride) + 24,
    })
}

// The instances of a geometry, where it has any.
fn instances(content: Spot, count: u32, primitive_offset: u32) -> Option<ByteRange>
    ensures fits { FitsIf result }
    ensures value { result ≡ (if count == 0 then None else Some (instances_range content count primitive_offset)) }
{
    if count == 0 {
        return None;
    }
    Some(ByteRange {
        buffer: content.buffer,
        from: u128::from(content.offset) + u128::from(primitive_offset),
        size: 64 * u128::from(count),
    })
}

// The indices of so many triangles, where there are any.
fn indices(index: Option<Index>, primitive_offset: u32, count: u32) -> Option<ByteRange>
    ensures fits { FitsIf result }
    ensures value { result ≡ option_map (λ x. index_range x primitive_offset count) index }
{
    match index {
        Some(index) => Some(ByteRange {
            buffer: index.buffer,
            from: u128::from(index.offset) + u128::from(primitive_offset),
            size: 3 * u128::from(count) * u128::from(index.index_size),
        }),
        None => None,
    }
}

// The transform of a geometry, where it has one.
fn transform_of(transform: Option<Spot>, transform_offset: u32) -> Option<ByteRange>
    ensures fits { FitsIf result }
    ensures value { result ≡ option_map (transform_range transform_offset) transform }
{
    match transform {
        Some(spot) => Some(ByteRange {
            buffer: spot.buffer,
            from: u128::from(spot.offset) + u128::from(transform_offset),
            size: 48,
        }),
        None => None,
    }
}

// The vertices of a geometry that have to be there.
fn vertices_needed(geometry: &Geometry) -> Option<ByteRange>
    ensures { result ≡ vertices_by vertices_needed geometry.now }
{
    match *geometry {
        Geometry::Triangles {
            format,
            vertex,
            stride,
            max_vertex,
            index,
            count,
            primitive_offset,
            first_vertex,
            ..
        } => match index {
            Some(_) => Some(vertex_at(vertex, stride, format, max_vertex)),
            None => Some(vertices(
                vertex,
                stride,
                format,
                primitive_offset,
                first_vertex,
                count,
            )),
        },
        Geometry::Boxes { .. } | Geometry::Instances { .. } => None,
    }
}

/// The vertices of so many triangles without indices.
pub fn vertices(
    vertex: Spot,
    stride: u32,
    format: Format,
    primitive_offset: u32,
    first_vertex: u32,
    count: u32,
) -> ByteRange
    ensures value { result ≡ vertices_range vertex stride format primitive_offset first_vertex count }
    ensures fits { Fits result }
{
    let stride = u128::from(stride);
    ByteRange {
        buffer: vertex.buffer,
        from: u128::from(vertex.offset)
            + u128::from(primitive_offset)
            + u128::from(first_vertex) * stride,
        size: (3 * u128::from(count)).saturating_sub(1) * stride + u128::from(format.size()),
    }
}

// The vertices that a geometry reads, with or without indices.
fn vertices_read(status: &Status, geometry: &Geometry) -> Option<ByteRange>
    ensures value { result ≡ vertices_by (vertices_read status.now.buffers) geometry.now }
    ensures fits { FitsIf result }
{
    match *geometry {
        Geometry::Triangles {
            format,
            vertex,
            stride,
            max_vertex,
            index,
            count,
            primitive_offset,
            first_vertex,
            ..
        } => match index {
            Some(_) => Some(cut(
                status,
                named_vertices(vertex, stride, format, first_vertex, max_vertex),
            )),
            None => Some(vertices(
                vertex,
                stride,
                format,
                primitive_offset,
                first_vertex,
                count,
            )),
        },
        Geometry::Boxes { .. } | Geometry::Instances { .. } => None,
    }
}

// One vertex.
fn vertex_at(vertex: Spot, stride: u32, format: Format, number: u32) -> ByteRange
    ensures { result ≡ vertex_range vertex stride format number }
{
    ByteRange {
        buffer: vertex.buffer,
        from: u128::from(vertex.offset) + u128::from(number) * u128::from(stride),
        size: u128::from(format.size()),
    }
}

/// The vertices that indices may name.
pub fn named_vertices(
    vertex: Spot,
    stride: u32,
    format: Format,
    first_vertex: u32,
    max_vertex: u32,
) -> ByteRange
    ensures value { result ≡ named_range vertex stride format first_vertex max_vertex }
    ensures fits { Fits result }
{
    let stride = u128::from(stride);
    ByteRange {
        buffer: vertex.buffer,
        from: u128::from(vertex.offset) + u128::from(first_vertex) * stride,
        size: u128::from(max_vertex) * stride + u128::from(format.size()),
    }
}

// A range, cut at the end of its buffer.
fn cut(status: &Status, range: ByteRange) -> ByteRange
    ensures value { result ≡ cut status.now.buffers range }
    ensures fits { Fits range → Fits result }
{
    let left = status
        .size_of_buffer(range.buffer)
        .saturating_sub(range.from);
    let size = if range.size < left { range.size } else { left };
    ByteRange { size, ..range }
}
