ghost use Rattle.std.specs.Prelude.{◌≡◌};
ghost use Rattle.ray_rules.specs.Ranges.{vertices_by};
ghost use Rattle.ray_device.specs.Ranges.{cut_at, ranges_with, vertices_with};

use ray_cmd::Geometry;
use ray_rules::ByteRange;
use ray_status::{inputs_with, named_vertices, vertices};

/// What a geometry reads: vertices, boxes or instances; indices; the transform. The size is that of
/// the buffer of vertices, boxes or instances. A geometry of no primitives reads nothing.
#[tactic(auto, unfolding(crate::specs::Ranges::ranges_with))]
pub(crate) fn ranges_read(size: u64, geometry: &Geometry) -> [Option<ByteRange>; 3]
    ensures { result ≡ ranges_with size geometry.now }
{
    inputs_with(geometry, vertices_read(size, geometry))
}

// The vertices that a geometry reads, with or without indices: these are cut at the buffer's end.
fn vertices_read(size: u64, geometry: &Geometry) -> Option<ByteRange>
    ensures { result ≡ vertices_by (vertices_with size) geometry.now }
{
    match *geometry {
        Geometry::Triangles {
            format,
            vertex,
            stride,
            max_vertex,
            index,
            count,
            primitive_offset,
            first_vertex,
            ..
        } => match index {
            Some(_) => Some(cut_at(
                size,
                named_vertices(vertex, stride, format, first_vertex, max_vertex),
            )),
            None => Some(vertices(
                vertex,
                stride,
                format,
                primitive_offset,
                first_vertex,
                count,
            )),
        },
        Geometry::Boxes { .. } | Geometry::Instances { .. } => None,
    }
}

// A range, cut at a size.
fn cut_at(size: u64, range: ByteRange) -> ByteRange
    ensures { result ≡ cut_at size range }
{
    let left = u128::from(size).saturating_sub(range.from);
    let size = if range.size < left { range.size } else { left };
    ByteRange { size, ..range }
}
