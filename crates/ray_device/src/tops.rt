ghost use Rattle.std.specs.Prelude.{◌≡◌, ◌≤◌, ◌^◌, false, length, map, option_copied, IfOk, Some};
ghost use Rattle.ray_device.specs.declared.fetch_fault.FetchFault.TheVariants.{Data};
ghost use Rattle.ray_device.specs.Tops.{read_bytes};
ghost use Rattle.ray_action.specs.Outcomes.{place_in, top_outcome};
ghost use Rattle.ray_memory.specs.State.{memory_of};
ghost use Rattle.ray_top.specs.Contents.{has_both_fast, top_built, top_updated};
ghost use Rattle.ray_top.specs.Trees.{without_tree};
ghost use Rattle.ray_device.specs.Fetching.{IsFetched};
ghost use Rattle.ray_device.specs.Tops.{used_now, bytes_now};

use crate::fetch_fault::FetchFault;
use crate::output::Output;
use ray_bytes::{DataFault, InstanceView};
use ray_cmd::Place;
use ray_flags::BuildFlags;
use ray_geom::Box3;
use ray_memory::State;
use ray_primitives::BuildFault;
use ray_rules::ByteRange;
use ray_top::{Top, Used};
use std::alloc::{AllocError as NoMemory, Global};
use std::thread::Threads;

/// The structures of these ids that instances may refer to, with their bounds as they are. (Own: the
/// structures are named beside the build.)
pub(crate) fn structures_used(
    alloc: Global,
    state: &State,
    ids: &[u32],
) -> Result<Vec<Used>, NoMemory>
    ensures { IfOk result (λ v. v.items ≡ map (used_now (memory_of state.now)) ids.now) }
{
    ids.iter().map(|id| used_at(state, *id)).collect(alloc)
}

// The structure of an id, with its bounds.
fn used_at(state: &State, id: u32) -> Used
    ensures { result ≡ used_now (memory_of state.now) id }
{
    Used {
        id,
        bounds: bounds(state, id),
    }
}

// The bounds of a structure, where it has any.
fn bounds(state: &State, id: u32) -> Option<Box3>
    ensures { result ≡ (used_now (memory_of state.now) id).bounds }
{
    state.bottom(id)?.bounds()
}

/// The bytes of a range that is read; none of one that isn't there, or of which a byte is missing.
pub(crate) fn bytes_read(state: &State, range: Option<ByteRange>) -> &[u8]
    ensures { result.now ≡ bytes_now (memory_of state.now) range }
{
    match range {
        Some(range) => bytes_if(state.bytes(range)),
        None => &[],
    }
}

// These bytes, and none where there aren't any.
fn bytes_if(bytes: Option<&[u8]>) -> &[u8]
    ensures { result.now ≡ read_bytes (Some (option_copied bytes.entry)) }
{
    match bytes {
        Some(bytes) => bytes,
        None => &[],
    }
}

/// A top structure of the instances in these bytes, at most 65,536, built anew by info number `info`,
/// or the first of X5 to X9 that is broken. (VK_BUILD_ACCELERATION_STRUCTURE_MODE_BUILD_KHR)
pub(crate) fn built_top<R: Threads + Sync>(
    rt: &R,
    alloc: Global,
    info: u32,
    flags: BuildFlags,
    instances: &[u8],
    count: u32,
    used: &[Used],
) -> Result<Output, FetchFault>
    requires speed { has_both_fast flags ≡ false }
    requires count { count ≤ 2 ^ 16 }
    ensures { IsFetched (top_outcome info (top_built flags used.now
        (record { bytes = instances.now; start = 0 }) count)) result }
{
    let view = InstanceView::new(instances, 0);
    match Top::build(rt, alloc, flags, view, count, used) {
        Ok(top) => Ok(Output::Top(top)),
        Err(BuildFault::Data(fault)) => Err(fault_in(info, fault)),
        Err(BuildFault::NoMemory) => Err(FetchFault::NoMemory),
    }
}

/// A top structure of the instances in these bytes, as many as the old one has, updated by info
/// number `info`, or the first of X5 to X9 that is broken.
/// (VK_BUILD_ACCELERATION_STRUCTURE_MODE_UPDATE_KHR)
pub(crate) fn updated_top<R: Threads + Sync>(
    rt: &R,
    alloc: Global,
    info: u32,
    old: &Top,
    instances: &[u8],
    count: u32,
    used: &[Used],
) -> Result<Output, FetchFault>
    requires { count ≡ length old.now.contents.instances }
    ensures { IsFetched (top_outcome info (top_updated (without_tree old.now) used.now
        (record { bytes = instances.now; start = 0 }) count)) result }
{
    let view = InstanceView::new(instances, 0);
    match old.update(rt, alloc, view, count, used) {
        Ok(top) => Ok(Output::Top(top)),
        Err(BuildFault::Data(fault)) => Err(fault_in(info, fault)),
        Err(BuildFault::NoMemory) => Err(FetchFault::NoMemory),
    }
}

// The fault of a geometry of info number `info`.
pub(crate) fn fault_in(info: u32, fault: DataFault) -> FetchFault
    ensures { result ≡ Data fault.rule (place_in info fault.geometry fault.element) }
{
    let place = match fault.element {
        Some(element) => Place::Element(info, fault.geometry, element),
        None => Place::Geometry(info, fault.geometry),
    };
    FetchFault::Data(fault.rule, place)
}
