ghost use Rattle.std.specs.Prelude.{◌≡◌, ℕ, List, slice_get};
ghost use Rattle.std.specs.Option.{option_and_then};
ghost use Rattle.ray_causes.specs.Names.{buffer_made, buffer_named, destroyed_buffer};
ghost use Rattle.ray_causes.specs.Names.{destroyed_structure, info_buffer, info_structure};
ghost use Rattle.ray_causes.specs.Names.{input_buffer, limit_at, own_buffer, own_structure};
ghost use Rattle.ray_causes.specs.Names.{own_use, structure_item, structure_made, structure_named};
ghost use Rattle.ray_causes.specs.Names.{triangles_buffer, use_at, use_needed};

use crate::cause::BufferUse;
use crate::member::{Member, Name};
use crate::naming::{
    at_buffer, at_buffers, at_data, at_dst, at_id, at_rays_or_hits, at_src, at_src_or_dst,
    at_structures, at_top, at_uses,
};
use crate::ranges::{geometry_at, info_at};
use ray_cmd::{Command, Geometry, Index, Info, Listed, Spot, Thing};

// The id of the buffer that a member names.
#[tactic(auto, unfolding(crate::specs::Names::buffer_named))]
pub(crate) fn buffer_named(command: &Command, member: Member) -> Option<u32>
    ensures { result ≡ buffer_named command.now member }
{
    match member {
        Member::Own(name) => own_buffer(command, name),
        Member::Item(name, item) => limit_at(command, name, item),
        Member::Info(info, name) => info_buffer(command, info, name),
        Member::Geometry(info, number, name) => match geometry_at(command, info, number) {
            Some(geometry) => input_buffer(name, geometry),
            None => None,
        },
        _ => None,
    }
}

// The buffer that a member of the command itself names.
#[tactic(auto, unfolding(crate::specs::Names::own_buffer))]
fn own_buffer(command: &Command, name: Name) -> Option<u32>
    ensures { result ≡ own_buffer command.now name }
{
    match command {
        Command::Structure { buffer, .. } => at_buffer(name, *buffer),
        Command::Destroy { what, id } => destroyed_buffer(*what, name, *id),
        Command::Read { buffer, .. } => at_buffer(name, *buffer),
        Command::Update { buffer, .. } => at_buffer(name, *buffer),
        Command::Fill { buffer, .. } => at_buffer(name, *buffer),
        Command::Copy { src, dst, .. } => at_src_or_dst(name, *src, *dst),
        Command::Serialize { dst, .. } => at_dst(name, dst.buffer),
        Command::Deserialize { src, .. } => at_src(name, src.buffer),
        Command::Property { dst, .. } => at_dst(name, dst.buffer),
        Command::Trace { rays, hits, .. } => at_rays_or_hits(name, rays.buffer, hits.buffer),
        _ => None,
    }
}

// The id of what is destroyed, where it is a buffer.
fn destroyed_buffer(what: Thing, name: Name, id: u32) -> Option<u32>
    ensures { result ≡ destroyed_buffer what name id }
{
    match what {
        Thing::Buffer => at_id(name, id),
        Thing::Structure => None,
    }
}

// The id of what is destroyed, where it is a structure.
fn destroyed_structure(what: Thing, name: Name, id: u32) -> Option<u32>
    ensures { result ≡ destroyed_structure what name id }
{
    match what {
        Thing::Buffer => None,
        Thing::Structure => at_id(name, id),
    }
}

// The buffer of a geometry at a name.
fn input_buffer(name: Name, geometry: &Geometry) -> Option<u32>
    ensures { result ≡ input_buffer name geometry.now }
{
    match geometry {
        Geometry::Triangles {
            vertex,
            index,
            transform,
            ..
        } => triangles_buffer(name, *vertex, *index, *transform),
        Geometry::Boxes { content, .. } => at_data(name, content.buffer),
        Geometry::Instances { content, .. } => at_data(name, content.buffer),
    }
}

// The buffer of triangles at a name.
fn triangles_buffer(
    name: Name,
    vertex: Spot,
    index: Option<Index>,
    transform: Option<Spot>,
) -> Option<u32>
    ensures { result ≡ triangles_buffer name vertex index transform }
{
    match name {
        Name::Vertex => Some(vertex.buffer),
        Name::Index => match index {
            Some(index) => Some(index.buffer),
            None => None,
        },
        Name::Transform => match transform {
            Some(spot) => Some(spot.buffer),
            None => None,
        },
        _ => None,
    }
}

// A buffer to which a barrier is limited.
fn limit_at(command: &Command, name: Name, item: u32) -> Option<u32>
    ensures { result ≡ limit_at command.now name item }
{
    match command {
        Command::Barrier { buffers, .. } => match item_if(buffers, item) {
            Some(id) => at_buffers(name, id),
            None => None,
        },
        _ => None,
    }
}

// An item of a list of ids, where there is one.
fn item_if(ids: &Option<Listed<u32>>, item: u32) -> Option<u32>
    ensures { result ≡ option_and_then (λ (ids : List ℕ). slice_get ids item) ids.now }
{
    match ids {
        Some(ids) => item_of(ids.as_slice(), item),
        None => None,
    }
}

// An item of a list of ids.
fn item_of(ids: &[u32], item: u32) -> Option<u32>
    ensures { result ≡ slice_get ids.now item }
{
    ids.get(item as usize).copied()
}

// The scratch buffer of an info.
fn info_buffer(command: &Command, info: u32, name: Name) -> Option<u32>
    ensures { result ≡ info_buffer command.now info name }
{
    match name {
        Name::Scratch => match info_at(command, info) {
            Some(info) => Some(info.scratch.buffer),
            None => None,
        },
        _ => None,
    }
}

/// The id of the structure that a member names. Own.
#[tactic(auto, unfolding(crate::specs::Names::structure_named))]
pub fn structure_named(command: &Command, member: Member) -> Option<u32>
    ensures { result ≡ structure_named command.now member }
{
    match member {
        Member::Own(name) => own_structure(command, name),
        Member::Item(name, item) => structure_item(command, name, item),
        Member::Info(info, name) => match info_at(command, info) {
            Some(info) => info_structure(name, info),
            None => None,
        },
        Member::InfoItem(info, name, item) => match info_at(command, info) {
            Some(info) => use_at(name, item, info),
            None => None,
        },
        _ => None,
    }
}

// The structure that a member of the command itself names.
#[tactic(auto, unfolding(crate::specs::Names::own_structure))]
fn own_structure(command: &Command, name: Name) -> Option<u32>
    ensures { result ≡ own_structure command.now name }
{
    match command {
        Command::Destroy { what, id } => destroyed_structure(*what, name, *id),
        Command::CopyStructure { src, dst, .. } => at_src_or_dst(name, *src, *dst),
        Command::Serialize { src, .. } => at_src(name, *src),
        Command::Deserialize { dst, .. } => at_dst(name, *dst),
        Command::Trace { top, .. } => at_top(name, *top),
        _ => None,
    }
}

// An item of a list of structures of the command itself.
fn structure_item(command: &Command, name: Name, item: u32) -> Option<u32>
    ensures { result ≡ structure_item command.now name item }
{
    match command {
        Command::Deserialize { uses, .. } => match item_of(uses.as_slice(), item) {
            Some(id) => at_uses(name, id),
            None => None,
        },
        Command::Property { structures, .. } => match item_of(structures.as_slice(), item) {
            Some(id) => at_structures(name, id),
            None => None,
        },
        _ => None,
    }
}

// The destination and the source of an info.
fn info_structure(name: Name, info: &Info) -> Option<u32>
    ensures { result ≡ info_structure name info.now }
{
    match name {
        Name::Dst => Some(info.dst),
        Name::Src => info.src,
        _ => None,
    }
}

// An entry of `uses` of an info.
fn use_at(name: Name, item: u32, info: &Info) -> Option<u32>
    ensures { result ≡ use_at name item info.now }
{
    match item_of(info.uses.as_slice(), item) {
        Some(id) => at_uses(name, id),
        None => None,
    }
}

// The id of the buffer that a command makes.
pub(crate) fn buffer_made(command: &Command, name: Name) -> Option<u32>
    ensures { result ≡ buffer_made command.now name }
{
    match command {
        Command::Buffer { id, .. } => at_id(name, *id),
        _ => None,
    }
}

// The id of the structure that a command makes.
pub(crate) fn structure_made(command: &Command, name: Name) -> Option<u32>
    ensures { result ≡ structure_made command.now name }
{
    match command {
        Command::Structure { id, .. } => at_id(name, *id),
        _ => None,
    }
}

// What a command needs of the buffer that a member names.
#[tactic(auto, unfolding(crate::specs::Names::use_needed))]
pub(crate) fn use_needed(command: &Command, member: Member) -> Option<BufferUse>
    ensures { result ≡ use_needed command.now member }
{
    match member {
        Member::Own(name) => own_use(command, name),
        Member::Info(..) => Some(BufferUse::Scratch),
        Member::Geometry(..) => Some(BufferUse::Input),
        _ => None,
    }
}

// What a command needs of the buffer that a member of its own names.
#[tactic(auto, unfolding(crate::specs::Names::own_use))]
fn own_use(command: &Command, name: Name) -> Option<BufferUse>
    ensures { result ≡ own_use command.now name }
{
    match command {
        Command::Structure { .. } => Some(BufferUse::Structure),
        Command::Update { .. } => Some(BufferUse::TransferDst),
        Command::Fill { .. } => Some(BufferUse::TransferDst),
        Command::Copy { .. } => {
            at_src_or_dst(name, BufferUse::TransferSrc, BufferUse::TransferDst)
        }
        Command::Serialize { .. } => Some(BufferUse::TransferDst),
        Command::Deserialize { .. } => Some(BufferUse::TransferSrc),
        Command::Property { .. } => Some(BufferUse::TransferDst),
        Command::Trace { .. } => Some(BufferUse::Storage),
        _ => None,
    }
}
