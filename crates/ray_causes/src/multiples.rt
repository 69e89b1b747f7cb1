ghost use Rattle.std.specs.Prelude.{◌≡◌};
ghost use Rattle.ray_causes.specs.Multiples.{boxes_multiple, info_multiple, input_multiple};
ghost use Rattle.ray_causes.specs.Multiples.{instances_multiple, multiple, multiple_at};
ghost use Rattle.ray_causes.specs.Multiples.{offset_size, own_multiple};
ghost use Rattle.ray_causes.specs.Multiples.{triangles_multiple};

use crate::cause::Multiple;
use crate::member::{Member, Name};
use crate::naming::{at_dst, at_rays_or_hits, at_src};
use crate::ranges::{geometry_at, info_at};
use ray_bytes::Format;
use ray_cmd::{Command, Geometry, Index, Spot};

// What a member has to be a multiple of.
#[tactic(auto, unfolding(crate::specs::Multiples::multiple_at))]
pub(crate) fn multiple_at(command: &Command, member: Member) -> Option<Multiple>
    ensures { result ≡ multiple_at command.now member }
{
    match member {
        Member::Own(name) => own_multiple(command, name),
        Member::Info(info, name) => info_multiple(command, info, name),
        Member::Geometry(info, number, name) => match geometry_at(command, info, number) {
            Some(geometry) => input_multiple(name, geometry),
            None => None,
        },
        _ => None,
    }
}

// A number, and of what it has to be a multiple.
fn multiple(number: u64, of: u64) -> Multiple
    ensures { result ≡ multiple number of }
{
    Multiple { number, of }
}

// The offset of a place of the command itself.
#[tactic(auto, unfolding(crate::specs::Multiples::own_multiple))]
fn own_multiple(command: &Command, name: Name) -> Option<Multiple>
    ensures { result ≡ own_multiple command.now name }
{
    match command {
        Command::Serialize { dst, .. } => at_dst(name, multiple(dst.offset, 256)),
        Command::Deserialize { src, .. } => at_src(name, multiple(src.offset, 256)),
        Command::Property { dst, .. } => at_dst(name, multiple(dst.offset, 8)),
        Command::Trace { rays, hits, .. } => {
            at_rays_or_hits(name, multiple(rays.offset, 8), multiple(hits.offset, 8))
        }
        _ => None,
    }
}

// Where the scratch memory of an info begins.
fn info_multiple(command: &Command, info: u32, name: Name) -> Option<Multiple>
    ensures { result ≡ info_multiple command.now info name }
{
    match name {
        Name::Scratch => match info_at(command, info) {
            Some(info) => Some(multiple(info.scratch.offset, 256)),
            None => None,
        },
        _ => None,
    }
}

// The numbers of a geometry.
fn input_multiple(name: Name, geometry: &Geometry) -> Option<Multiple>
    ensures { result ≡ input_multiple name geometry.now }
{
    match geometry {
        Geometry::Triangles {
            format,
            vertex,
            stride,
            index,
            transform,
            primitive_offset,
            transform_offset,
            ..
        } => triangles_multiple(
            name,
            *format,
            *vertex,
            *stride,
            *index,
            *transform,
            *primitive_offset,
            *transform_offset,
        ),
        Geometry::Boxes {
            content,
            stride,
            primitive_offset,
            ..
        } => boxes_multiple(name, *content, *stride, *primitive_offset),
        Geometry::Instances {
            content,
            primitive_offset,
            ..
        } => instances_multiple(name, *content, *primitive_offset),
    }
}

// The numbers of triangles.
fn triangles_multiple(
    name: Name,
    format: Format,
    vertex: Spot,
    stride: u32,
    index: Option<Index>,
    transform: Option<Spot>,
    primitive_offset: u32,
    transform_offset: u32,
) -> Option<Multiple>
    ensures { result ≡ triangles_multiple name format vertex stride index transform
        primitive_offset transform_offset }
{
    let component = u64::from(format.component_size());
    match name {
        Name::Vertex => Some(multiple(vertex.offset, component)),
        Name::Stride => Some(multiple(u64::from(stride), component)),
        Name::Index => match index {
            Some(index) => Some(multiple(index.offset, u64::from(index.index_size))),
            None => None,
        },
        Name::Transform => match transform {
            Some(spot) => Some(multiple(spot.offset, 16)),
            None => None,
        },
        Name::PrimitiveOffset => {
            Some(multiple(u64::from(primitive_offset), offset_size(index, format)))
        }
        Name::TransformOffset => match transform {
            Some(_) => Some(multiple(u64::from(transform_offset), 16)),
            None => None,
        },
        _ => None,
    }
}

// Of what `primitive_offset` of triangles has to be a multiple.
fn offset_size(index: Option<Index>, format: Format) -> u64
    ensures { result ≡ offset_size index format }
{
    match index {
        Some(index) => u64::from(index.index_size),
        None => u64::from(format.component_size()),
    }
}

// The numbers of boxes.
fn boxes_multiple(name: Name, content: Spot, stride: u32, primitive_offset: u32) -> Option<Multiple>
    ensures { result ≡ boxes_multiple name content stride primitive_offset }
{
    match name {
        Name::Data => Some(multiple(content.offset, 8)),
        Name::Stride => Some(multiple(u64::from(stride), 8)),
        Name::PrimitiveOffset => Some(multiple(u64::from(primitive_offset), 8)),
        _ => None,
    }
}

// The numbers of instances.
fn instances_multiple(name: Name, content: Spot, primitive_offset: u32) -> Option<Multiple>
    ensures { result ≡ instances_multiple name content primitive_offset }
{
    match name {
        Name::Data => Some(multiple(content.offset, 16)),
        Name::PrimitiveOffset => Some(multiple(u64::from(primitive_offset), 16)),
        _ => None,
    }
}
