ghost use Rattle.std.specs.Prelude.{◌≡◌, ◌<◌, ◌≤◌, ◌^◌, IfSome, length};
ghost use Rattle.std.specs.List.{list_any, position};
ghost use Rattle.ray_rules.specs.Buffers.{lacks_index_usage, lacks_info_usage, lacks_input_usage, lacks_transform_usage};
ghost use Rattle.ray_rules.specs.Names.{lacks_index, lacks_input, lacks_named, lacks_source, lacks_transform};
ghost use Rattle.ray_rules.specs.Places.{first_part};

use crate::first::part;
use ray_cmd::{Geometry, Index, Info, Listed, Place, Spot};
use ray_status::{Status, lacks_a_structure, lacks_buffer, lacks_scratch, lacks_structure};

/// V1 of a build: the least info that names a buffer or structure that isn't live. (Own.)
pub fn first_lacking(status: &Status, infos: &Listed<Info>) -> Option<Place>
    ensures { result ≡ first_part (lacks_named status.now) infos.now }
{
    part(position_of_lacking(status, infos.as_slice()))
}

// The number of that info.
fn position_of_lacking(status: &Status, infos: &[Info]) -> Option<usize>
    requires { length infos.now ≤ 67108864 }
    ensures value { result ≡ position (lacks_named status.now) infos.now }
    ensures few { IfSome result (λ k. k < 2 ^ 32) }
{
    infos.iter().position(|info| lacks_named(status, info))
}

// Whether something that an info names isn't live.
fn lacks_named(status: &Status, info: &Info) -> bool
    ensures { result ≡ lacks_named status.now info.now }
{
    lacks_buffer(status, info.scratch.buffer)
        || lacks_structure(status, info.dst)
        || lacks_source(status, info.src)
        || lacks_an_input(status, info.geometries.as_slice())
        || lacks_a_structure(status, info.uses.as_slice())
}

// Whether the source of an update, where there is one, isn't live.
fn lacks_source(status: &Status, src: Option<u32>) -> bool
    ensures { result ≡ lacks_source status.now src }
{
    match src {
        Some(id) => lacks_structure(status, id),
        None => false,
    }
}

// Whether a buffer that one of these geometries names isn't live.
fn lacks_an_input(status: &Status, geometries: &[Geometry]) -> bool
    ensures { result ≡ list_any (lacks_input status.now) geometries.now }
{
    geometries
        .iter()
        .any(|geometry| lacks_input(status, geometry))
}

// Whether a buffer that a geometry names isn't live.
fn lacks_input(status: &Status, geometry: &Geometry) -> bool
    ensures { result ≡ lacks_input status.now geometry.now }
{
    match geometry {
        Geometry::Triangles {
            vertex,
            index,
            transform,
            ..
        } => {
            lacks_buffer(status, vertex.buffer)
                || lacks_index(status, *index)
                || lacks_transform(status, *transform)
        }
        Geometry::Boxes { content, .. } => lacks_buffer(status, content.buffer),
        Geometry::Instances { content, .. } => lacks_buffer(status, content.buffer),
    }
}

// Whether the buffer of indices, where there are any, isn't live.
fn lacks_index(status: &Status, index: Option<Index>) -> bool
    ensures { result ≡ lacks_index status.now index }
{
    match index {
        Some(index) => lacks_buffer(status, index.buffer),
        None => false,
    }
}

// Whether the buffer of a transform, where there is one, isn't live.
fn lacks_transform(status: &Status, transform: Option<Spot>) -> bool
    ensures { result ≡ lacks_transform status.now transform }
{
    match transform {
        Some(spot) => lacks_buffer(status, spot.buffer),
        None => false,
    }
}

/// V3 of a build: the least info that names a buffer without the usage that it needs. (Own; the
/// valid usage of VkAccelerationStructureBuildGeometryInfoKHR.)
pub fn first_lacking_usage(status: &Status, infos: &Listed<Info>) -> Option<Place>
    ensures { result ≡ first_part (lacks_info_usage status.now) infos.now }
{
    part(position_of_lacking_usage(status, infos.as_slice()))
}

// The number of that info.
fn position_of_lacking_usage(status: &Status, infos: &[Info]) -> Option<usize>
    requires { length infos.now ≤ 67108864 }
    ensures value { result ≡ position (lacks_info_usage status.now) infos.now }
    ensures few { IfSome result (λ k. k < 2 ^ 32) }
{
    infos.iter().position(|info| lacks_info_usage(status, info))
}

// Whether a buffer that an info names lacks the usage that it needs.
fn lacks_info_usage(status: &Status, info: &Info) -> bool
    ensures { result ≡ lacks_info_usage status.now info.now }
{
    lacks_scratch(status, info.scratch.buffer)
        || lacks_an_input_usage(status, info.geometries.as_slice())
}

// Whether a buffer that one of these geometries names isn't for input.
fn lacks_an_input_usage(status: &Status, geometries: &[Geometry]) -> bool
    ensures { result ≡ list_any (lacks_input_usage status.now) geometries.now }
{
    geometries
        .iter()
        .any(|geometry| lacks_input_usage(status, geometry))
}

// Whether a buffer that a geometry names isn't for input.
fn lacks_input_usage(status: &Status, geometry: &Geometry) -> bool
    ensures { result ≡ lacks_input_usage status.now geometry.now }
{
    match geometry {
        Geometry::Triangles {
            vertex,
            index,
            transform,
            ..
        } => {
            ray_status::lacks_input(status, vertex.buffer)
                || lacks_index_usage(status, *index)
                || lacks_transform_usage(status, *transform)
        }
        Geometry::Boxes { content, .. } => ray_status::lacks_input(status, content.buffer),
        Geometry::Instances { content, .. } => ray_status::lacks_input(status, content.buffer),
    }
}

// Whether the buffer of indices, where there are any, isn't for input.
fn lacks_index_usage(status: &Status, index: Option<Index>) -> bool
    ensures { result ≡ lacks_index_usage status.now index }
{
    match index {
        Some(index) => ray_status::lacks_input(status, index.buffer),
        None => false,
    }
}

// Whether the buffer of a transform, where there is one, isn't for input.
fn lacks_transform_usage(status: &Status, transform: Option<Spot>) -> bool
    ensures { result ≡ lacks_transform_usage status.now transform }
{
    match transform {
        Some(spot) => ray_status::lacks_input(status, spot.buffer),
        None => false,
    }
}
