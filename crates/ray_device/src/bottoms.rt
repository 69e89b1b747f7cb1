ghost use Rattle.std.specs.Prelude.{◌≡◌, [], false, None, Result, IfSome, option_map};
ghost use Rattle.ray_bytes.specs.declared.data_fault.DataFault.{DataFault as AFault};
ghost use Rattle.ray_flags.specs.declared.kind.Kind.TheVariants.{Triangle};
ghost use Rattle.ray_action.specs.Action.{content_buffer};
ghost use Rattle.ray_action.specs.Building.{indices_in, transform_in, triangle_info, vertices_in, new_builder, update_builder};
ghost use Rattle.ray_action.specs.Outcomes.{bottom_outcome};
ghost use Rattle.ray_action.specs.Seeing.{see_range};
ghost use Rattle.ray_bottom.specs.Trees.{without_tree};
ghost use Rattle.ray_bottom.specs.Builders.{BuilderValue, bare, IsAdded, size_of_indices, with_triangles};
ghost use Rattle.ray_geometries.specs.Contents.{HasRoom, has_both_fast};
ghost use Rattle.ray_memory.specs.State.{memory_of};
ghost use Rattle.ray_device.specs.Bottoms.{add_now, add_all_now, CanAdd, HasRoomFor, IsBuilder, IsThereNow, IsTransformThere, size_now};
ghost use Rattle.ray_device.specs.Fetching.{IsFetched};

use crate::fetch_fault::FetchFault;
use crate::output::Output;
use crate::ranges::ranges_read;
use crate::tops::{bytes_read, fault_in};
use ray_bottom::{Bottom, Builder};
use ray_bytes::{BoxView, Format, IndexView, TransformView, VertexView};
use ray_cmd::{Geometry, Index};
use ray_flags::BuildFlags;
use ray_memory::State;
use ray_primitives::{BoxInfo, BuildFault, TriangleInfo};
use ray_rules::ByteRange;
use std::alloc::Global;
use std::thread::Threads;

/// A bottom structure of these geometries, read from the memory as it is, built anew by info number
/// `info`, or the first of X1 to X4 that is broken, with its place. `flags` doesn't ask both for fast
/// traces and for fast builds; the geometries are all of triangles or all of boxes, not too many, and
/// all that is read of them is there. (VK_BUILD_ACCELERATION_STRUCTURE_MODE_BUILD_KHR)
pub(crate) fn built_bottom<R: Threads + Sync>(
    rt: &R,
    alloc: Global,
    state: &State,
    info: u32,
    flags: BuildFlags,
    geometries: &[Geometry],
) -> Result<Output, FetchFault>
    requires speed { has_both_fast flags ≡ false }
    requires can { CanAdd (memory_of state.now) geometries.now [] }
    ensures { IsFetched (bottom_outcome info (add_all_now (memory_of state.now) geometries.now
        (new_builder flags))) result }
{
    let added = with_geometries(state, Builder::new(alloc, flags), geometries);
    finished(rt, info, added)
}

/// The same as an update of a structure by info number `info`, with its flags, or the first of X1 to
/// X4, X9 and X10 that is broken, with its place.
/// (VK_BUILD_ACCELERATION_STRUCTURE_MODE_UPDATE_KHR)
pub(crate) fn updated_bottom<R: Threads + Sync>(
    rt: &R,
    alloc: Global,
    state: &State,
    info: u32,
    old: &Bottom,
    geometries: &[Geometry],
) -> Result<Output, FetchFault>
    requires can { CanAdd (memory_of state.now) geometries.now [] }
    ensures { IsFetched (bottom_outcome info (add_all_now (memory_of state.now) geometries.now
        (update_builder (without_tree old.now)))) result }
{
    let added = with_geometries(state, Builder::for_update(alloc, old), geometries);
    finished(rt, info, added)
}

// The structure of a builder to which all was added, or the fault of info number `info`.
fn finished<R: Threads + Sync>(
    rt: &R,
    info: u32,
    added: Result<Builder<'_>, BuildFault>,
) -> Result<Output, FetchFault>
    ensures { (all : Result BuilderValue AFault) → IsBuilder all added.entry
        → IsFetched (bottom_outcome info all) result }
{
    match added {
        Ok(builder) => Ok(Output::Bottom(builder.finish(rt)?)),
        Err(BuildFault::Data(fault)) => Err(fault_in(info, fault)),
        Err(BuildFault::NoMemory) => Err(FetchFault::NoMemory),
    }
}

// A builder with these geometries more.
fn with_geometries<'a>(
    state: &State,
    builder: Builder<'a>,
    geometries: &[Geometry],
) -> Result<Builder<'a>, BuildFault>
    requires can { CanAdd (memory_of state.now) geometries.now builder.contents.geometries }
    ensures { IsBuilder (add_all_now (memory_of state.now) geometries.now (bare builder.entry))
        result }
{
    let mut builder = builder;
    for geometry in geometries {
        add(&mut builder, state, geometry)?;
    }
    Ok(builder)
}

// Adds a geometry, as the memory holds what it reads. One of instances adds nothing.
fn add(builder: &mut Builder<'_>, state: &State, geometry: &Geometry) -> Result<(), BuildFault>
    requires there { IsThereNow (memory_of state.now) geometry.now }
    requires room { HasRoomFor geometry.now builder.old.contents.geometries }
    ensures { IsAdded (bare builder.old) (add_now (memory_of state.now) (bare builder.old)
        geometry.now) (bare builder.new) result }
{
    let [content, indices, transform] = ranges_read(size_of_content(state, geometry), geometry);
    match *geometry {
        Geometry::Triangles {
            opaque,
            format,
            stride,
            max_vertex,
            index,
            count,
            ..
        } => {
            let triangles = Triangles {
                opaque,
                format,
                stride,
                max_vertex,
                index,
                count,
            };
            add_triangles(builder, state, triangles, content, indices, transform)
        }
        Geometry::Boxes {
            opaque,
            stride,
            count,
            ..
        } => {
            let boxes = BoxView::new(bytes_read(state, content), 0, stride);
            builder.boxes(&BoxInfo { opaque, count }, boxes)
        }
        Geometry::Instances { .. } => Ok(()),
    }
}

// What a command says of a geometry of triangles, but for where they are.
#[derive(Clone, Copy)]
struct Triangles {
    opaque: bool,
    format: Format,
    stride: u32,
    max_vertex: u32,
    index: Option<Index>,
    count: u32,
}

// Adds a geometry of triangles that are read from these ranges.
fn add_triangles(
    builder: &mut Builder<'_>,
    state: &State,
    triangles: Triangles,
    content: Option<ByteRange>,
    indices: Option<ByteRange>,
    transform: Option<ByteRange>,
) -> Result<(), BuildFault>
    requires room { HasRoom Triangle triangles.count builder.old.contents.geometries }
    requires there { IfSome transform (IsTransformThere (memory_of state.now)) }
    ensures { let m = memory_of state.now in
        let read = option_map (indices_in (see_range m indices)) triangles.index in
        IsAdded (bare builder.old) (with_triangles (bare builder.old)
        (triangle_info triangles.opaque triangles.format triangles.max_vertex read triangles.count)
        (vertices_in triangles.format triangles.stride (see_range m content)) read
        (transform_in (see_range m transform))) (bare builder.new) result }
{
    let info = TriangleInfo {
        opaque: triangles.opaque,
        format: triangles.format,
        index_size: index_size(triangles.index),
        count: triangles.count,
        first_vertex: 0,
        max_vertex: triangles.max_vertex,
    };
    let read = bytes_read(state, content);
    let vertices = VertexView::new(read, 0, triangles.stride, triangles.format);
    let indices = indices_at(state, indices, triangles.index);
    builder.triangles(&info, vertices, indices, transform_at(state, transform))
}

// How many bytes the buffer of a geometry's vertices, boxes or instances has: none where it isn't
// live.
pub(crate) fn size_of_content(state: &State, geometry: &Geometry) -> u64
    ensures { result ≡ size_now (memory_of state.now) geometry.now }
{
    state.size(content_buffer(geometry)).unwrap_or(0)
}

// The buffer of a geometry's vertices, boxes or instances.
fn content_buffer(geometry: &Geometry) -> u32
    ensures { result ≡ content_buffer geometry.now }
{
    match *geometry {
        Geometry::Triangles { vertex, .. } => vertex.buffer,
        Geometry::Boxes { content, .. } => content.buffer,
        Geometry::Instances { content, .. } => content.buffer,
    }
}

// How many bytes an index has: 0 where there are none.
fn index_size(index: Option<Index>) -> u8
    ensures { result ≡ size_of_indices (option_map (indices_in None) index) }
{
    match index {
        Some(index) => { if index.index_size == 4 { 4 } else { 2 } }
        None => 0,
    }
}

// The indices that stand in a range, where there are any.
fn indices_at(
    state: &State,
    range: Option<ByteRange>,
    index: Option<Index>,
) -> Option<IndexView<'_>>
    ensures { result ≡ option_map (indices_in (see_range (memory_of state.now) range)) index }
{
    let wide = index?.index_size == 4;
    Some(IndexView::new(bytes_read(state, range), 0, wide))
}

// The transform of a range, where there is one.
fn transform_at(state: &State, range: Option<ByteRange>) -> Option<TransformView<'_>>
    requires { IfSome range (IsTransformThere (memory_of state.now)) }
    ensures { result ≡ transform_in (see_range (memory_of state.now) range) }
{
    match range {
        Some(range) => TransformView::new(bytes_read(state, Some(range)), 0),
        None => None,
    }
}
