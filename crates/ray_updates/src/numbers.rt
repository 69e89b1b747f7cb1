ghost use Rattle.std.specs.Prelude.{◌≡◌};
ghost use Rattle.ray_updates.specs.Numbers.{bool_number, boxes_number, format_number, index_number};
ghost use Rattle.ray_updates.specs.Numbers.{instances_number, number_of, triangles_number};

use crate::change::Matter;
use ray_bytes::Format;
use ray_cmd::{Geometry, Index};

// What of a geometry an update may not change, as a number.
pub(crate) fn number_of(matter: Matter, geometry: &Geometry) -> u32
    ensures { result ≡ number_of matter geometry.now }
{
    match geometry {
        Geometry::Triangles {
            opaque,
            format,
            max_vertex,
            index,
            transform,
            count,
            ..
        } => triangles_number(
            matter,
            *opaque,
            *format,
            *max_vertex,
            *index,
            transform.is_some(),
            *count,
        ),
        Geometry::Boxes { opaque, count, .. } => boxes_number(matter, *opaque, *count),
        Geometry::Instances { count, .. } => instances_number(matter, *count),
    }
}

// The same of triangles.
fn triangles_number(
    matter: Matter,
    opaque: bool,
    format: Format,
    max_vertex: u32,
    index: Option<Index>,
    has_transform: bool,
    count: u32,
) -> u32
    ensures { result ≡ triangles_number matter opaque format max_vertex index has_transform count }
{
    match matter {
        Matter::Kind => 1,
        Matter::Opaque => bool_number(opaque),
        Matter::Format => format_number(format),
        Matter::Index => index_number(index),
        Matter::MaxVertex => max_vertex,
        Matter::Count => count,
        Matter::Transform => bool_number(has_transform),
    }
}

// The same of boxes.
fn boxes_number(matter: Matter, opaque: bool, count: u32) -> u32
    ensures { result ≡ boxes_number matter opaque count }
{
    match matter {
        Matter::Kind => 2,
        Matter::Opaque => bool_number(opaque),
        Matter::Count => count,
        _ => 0,
    }
}

// The same of instances.
fn instances_number(matter: Matter, count: u32) -> u32
    ensures { result ≡ instances_number matter count }
{
    match matter {
        Matter::Kind => 3,
        Matter::Count => count,
        _ => 0,
    }
}

// A truth value as a number.
fn bool_number(truth: bool) -> u32
    ensures { result ≡ bool_number truth }
{
    if truth { 1 } else { 0 }
}

// A format as a number.
fn format_number(format: Format) -> u32
    ensures { result ≡ format_number format }
{
    match format {
        Format::S32x3 => 1,
        Format::S32x2 => 2,
        Format::S16x3 => 3,
    }
}

// The type of indices as a number.
fn index_number(index: Option<Index>) -> u32
    ensures { result ≡ index_number index }
{
    match index {
        Some(index) => u32::from(index.index_size),
        None => 0,
    }
}
