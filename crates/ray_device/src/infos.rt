ghost use Rattle.std.specs.Prelude.{[], ◌≡◌, ◌≤◌, ◌^◌, false, Some, None};
ghost use Rattle.ray_rules.specs.Ranges.{count_of};
ghost use Rattle.ray_top.specs.Contents as tops;
ghost use Rattle.ray_cmd.specs.declared.build_mode.BuildMode.TheVariants as modes;
ghost use Rattle.ray_action.specs.Memory.{ContentsAt};
ghost use Rattle.ray_action.specs.Readiness.{IsBottomSource, IsTopSource};
ghost use Rattle.ray_memory.specs.State.{memory_of};
ghost use Rattle.ray_device.specs.Bottoms.{CanAdd};
ghost use Rattle.ray_device.specs.Fetching.{IsFetched};
ghost use Rattle.ray_device.specs.Infos.{bottom_now, info_now, instances_now, kind_now, one_top_now, top_now, CanBuild, CanBuildBottom, CanBuildKind, CanBuildOneTop, CanBuildTop};

use crate::bottoms::{built_bottom, size_of_content, updated_bottom};
use crate::fetch_fault::FetchFault;
use crate::output::Output;
use crate::ranges::ranges_read;
use crate::tops::{built_top, bytes_read, structures_used, updated_top};
use ray_cmd::{BuildMode, Geometry, Info, StructureKind};
use ray_memory::State;
use std::alloc::Global;
use std::thread::Threads;

// What info number `number` of a build gives: the structure of its destination's kind, or the first
// data rule that is broken.
pub(crate) fn built<R: Threads + Sync>(
    rt: &R,
    alloc: Global,
    state: &State,
    number: u32,
    info: &Info,
) -> Result<Output, FetchFault>
    requires { CanBuild (memory_of state.now) info.now }
    ensures { IsFetched (info_now (memory_of state.now) number info.now) result }
{
    match state.form(info.dst) {
        Some(form) => of_kind(rt, alloc, state, number, info, form.kind),
        None => unreachable!("the destination is live"),
    }
}

// The structure of a kind.
fn of_kind<R: Threads + Sync>(
    rt: &R,
    alloc: Global,
    state: &State,
    number: u32,
    info: &Info,
    kind: StructureKind,
) -> Result<Output, FetchFault>
    requires { CanBuildKind (memory_of state.now) info.now kind }
    ensures { IsFetched (kind_now (memory_of state.now) number info.now kind) result }
{
    match kind {
        StructureKind::Bottom => bottom(rt, alloc, state, number, info, info.mode, info.src),
        StructureKind::Top => top(rt, alloc, state, number, info),
    }
}

// A bottom structure, built anew or updated.
fn bottom<R: Threads + Sync>(
    rt: &R,
    alloc: Global,
    state: &State,
    number: u32,
    info: &Info,
    mode: BuildMode,
    src: Option<u32>,
) -> Result<Output, FetchFault>
    requires { CanBuildBottom (memory_of state.now) info.now mode src }
    ensures { IsFetched (bottom_now (memory_of state.now) number info.now mode src) result }
{
    match (mode, src) {
        (BuildMode::Build, _) => built_bottom(
            rt,
            alloc,
            state,
            number,
            info.flags,
            info.geometries.as_slice(),
        ),
        (BuildMode::Update, Some(src)) => bottom_again(rt, alloc, state, number, info, src),
        (BuildMode::Update, None) => unreachable!("an update has a source"),
    }
}

// An update of the bottom structure of an id.
fn bottom_again<R: Threads + Sync>(
    rt: &R,
    alloc: Global,
    state: &State,
    number: u32,
    info: &Info,
    src: u32,
) -> Result<Output, FetchFault>
    requires can { CanAdd (memory_of state.now) info.now.geometries [] }
    requires source { IsBottomSource (memory_of state.now (ContentsAt src)) }
    ensures { IsFetched (bottom_now (memory_of state.now) number info.now modes.Update (Some src)) result }
{
    match state.bottom(src) {
        Some(old) => updated_bottom(rt, alloc, state, number, old, info.geometries.as_slice()),
        None => unreachable!("the source is a bottom structure"),
    }
}

// A top structure, from its one geometry.
fn top<R: Threads + Sync>(
    rt: &R,
    alloc: Global,
    state: &State,
    number: u32,
    info: &Info,
) -> Result<Output, FetchFault>
    requires { CanBuildOneTop (memory_of state.now) info.now info.now.geometries }
    ensures { IsFetched (one_top_now (memory_of state.now) number info.now info.now.geometries) result }
{
    match info.geometries.as_slice() {
        [instances] => top_of(
            rt, alloc, state, number, info, instances, info.mode, info.src,
        ),
        _ => unreachable!("a top structure has one geometry"),
    }
}

// A top structure of these instances, built anew or updated.
fn top_of<R: Threads + Sync>(
    rt: &R,
    alloc: Global,
    state: &State,
    number: u32,
    info: &Info,
    instances: &Geometry,
    mode: BuildMode,
    src: Option<u32>,
) -> Result<Output, FetchFault>
    requires { CanBuildTop (memory_of state.now) info.now instances.now mode src }
    ensures { IsFetched (top_now (memory_of state.now) number info.now instances.now mode src) result }
{
    match (mode, src) {
        (BuildMode::Build, _) => top_anew(rt, alloc, state, number, info, instances),
        (BuildMode::Update, Some(src)) => {
            top_again(rt, alloc, state, number, info, instances, src)
        }
        (BuildMode::Update, None) => unreachable!("an update has a source"),
    }
}

// A top structure that is built anew.
fn top_anew<R: Threads + Sync>(
    rt: &R,
    alloc: Global,
    state: &State,
    number: u32,
    info: &Info,
    instances: &Geometry,
) -> Result<Output, FetchFault>
    requires count { count_of instances.now ≤ 2 ^ 16 }
    requires speed { tops.has_both_fast info.now.flags ≡ false }
    ensures { IsFetched (top_now (memory_of state.now) number info.now instances.now modes.Build None) result }
{
    let used = structures_used(alloc, state, info.uses.as_slice())?;
    let bytes = instance_bytes(state, instances);
    let count = count_of(instances);
    built_top(rt, alloc, number, info.flags, bytes, count, used.as_slice())
}

// An update of the top structure of an id.
fn top_again<R: Threads + Sync>(
    rt: &R,
    alloc: Global,
    state: &State,
    number: u32,
    info: &Info,
    instances: &Geometry,
    src: u32,
) -> Result<Output, FetchFault>
    requires { IsTopSource instances.now (memory_of state.now (ContentsAt src)) }
    ensures { IsFetched (top_now (memory_of state.now) number info.now instances.now modes.Update (Some src)) result }
{
    let used = structures_used(alloc, state, info.uses.as_slice())?;
    let bytes = instance_bytes(state, instances);
    let count = count_of(instances);
    match state.top(src) {
        Some(old) => updated_top(rt, alloc, number, old, bytes, count, used.as_slice()),
        None => unreachable!("the source is a top structure"),
    }
}

// The bytes of the instances of a geometry.
fn instance_bytes<'a>(state: &'a State, instances: &Geometry) -> &'a [u8]
    ensures { result.now ≡ (instances_now (memory_of state.now) instances.now).bytes }
{
    let [content, _, _] = ranges_read(size_of_content(state, instances), instances);
    bytes_read(state, content)
}

// How many primitives a geometry has.
fn count_of(geometry: &Geometry) -> u32
    ensures { result ≡ count_of geometry.now }
{
    match *geometry {
        Geometry::Triangles { count, .. } => count,
        Geometry::Boxes { count, .. } => count,
        Geometry::Instances { count, .. } => count,
    }
}
