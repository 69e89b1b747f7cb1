ghost use Rattle.std.specs.Prelude.{◌≡◌, ◌<◌, ◌≤◌, ◌^◌, IfSome, length};
ghost use Rattle.std.specs.List.{list_all, position};
ghost use Rattle.ray_cmd.specs.declared.info.Info.{Info as AnInfo};
ghost use Rattle.ray_rules.specs.Places.{first_part};
ghost use Rattle.ray_rules.specs.Shapes.{are_of_bottom, are_of_top, are_too_many, is_boxes, is_instances, is_misshapen, is_too_large, is_triangles, is_wrong_info, most_primitives, prefers_both, updates_wrongly};
ghost use Rattle.ray_rules.specs.Structures.{is_smaller_update, is_too_small};

use crate::first::part;
use bitflags::Flags;
use ray_cmd::{BuildFlags, BuildMode, Geometry, Info, Listed, Place};
use ray_status::{
    Status, differ_in_kind, is_bottom_at, is_smaller, is_top_at, made_size, primitives,
    structure_size, uses_wrongly,
};

/// V7 of a build: the least info in which structures of the wrong kinds stand. (Own; the valid usage
/// of vkCmdBuildAccelerationStructuresKHR.)
pub fn first_mismatched(status: &Status, infos: &Listed<Info>) -> Option<Place>
    ensures { result ≡ first_part (is_wrong_info status.now) infos.now }
{
    part(position_of_mismatched(status, infos.as_slice()))
}

// The number of that info.
fn position_of_mismatched(status: &Status, infos: &[Info]) -> Option<usize>
    requires { length infos.now ≤ 67108864 }
    ensures value { result ≡ position (is_wrong_info status.now) infos.now }
    ensures few { IfSome result (λ k. k < 2 ^ 32) }
{
    infos.iter().position(|info| is_wrong_info(status, info))
}

// Whether structures of the wrong kinds stand in an info.
fn is_wrong_info(status: &Status, info: &Info) -> bool
    ensures { result ≡ is_wrong_info status.now info.now }
{
    uses_wrongly(status, info.dst, info.uses.as_slice())
        || updates_wrongly(status, info.dst, info.src)
}

// Whether the source of an update, where there is one, differs from its destination in kind.
fn updates_wrongly(status: &Status, dst: u32, src: Option<u32>) -> bool
    ensures { result ≡ updates_wrongly status.now dst src }
{
    match src {
        Some(id) => differ_in_kind(status, id, dst),
        None => false,
    }
}

/// V8 of a build: the least info whose geometries aren't those of its destination's kind. (The valid
/// usage of VkAccelerationStructureBuildGeometryInfoKHR.)
pub fn first_misshapen(status: &Status, infos: &Listed<Info>) -> Option<Place>
    ensures { result ≡ first_part (is_misshapen status.now) infos.now }
{
    part(position_of_misshapen(status, infos.as_slice()))
}

// The number of that info.
fn position_of_misshapen(status: &Status, infos: &[Info]) -> Option<usize>
    requires { length infos.now ≤ 67108864 }
    ensures value { result ≡ position (is_misshapen status.now) infos.now }
    ensures few { IfSome result (λ k. k < 2 ^ 32) }
{
    infos.iter().position(|info| is_misshapen(status, info))
}

// Whether the geometries of an info aren't those of its destination's kind.
fn is_misshapen(status: &Status, info: &Info) -> bool
    ensures { result ≡ is_misshapen status.now info.now }
{
    let geometries = info.geometries.as_slice();
    (is_top_at(status, info.dst) && !are_of_top(geometries))
        || (is_bottom_at(status, info.dst) && !are_of_bottom(geometries))
}

// Whether geometries are one, of instances: what a top is built of.
fn are_of_top(geometries: &[Geometry]) -> bool
    ensures { result ≡ are_of_top geometries.now }
{
    geometries.len() == 1 && are_instances(geometries)
}

// Whether geometries are all of triangles or all of boxes: what a bottom is built of.
fn are_of_bottom(geometries: &[Geometry]) -> bool
    ensures { result ≡ are_of_bottom geometries.now }
{
    are_triangles(geometries) || are_boxes(geometries)
}

// Whether geometries are all of triangles.
fn are_triangles(geometries: &[Geometry]) -> bool
    ensures { result ≡ list_all is_triangles geometries.now }
{
    geometries.iter().all(|geometry| is_triangles(geometry))
}

// Whether a geometry is of triangles.
fn is_triangles(geometry: &Geometry) -> bool
    ensures { result ≡ is_triangles geometry.now }
{
    matches!(geometry, Geometry::Triangles { .. })
}

// Whether geometries are all of boxes.
fn are_boxes(geometries: &[Geometry]) -> bool
    ensures { result ≡ list_all is_boxes geometries.now }
{
    geometries.iter().all(|geometry| is_boxes(geometry))
}

// Whether a geometry is of boxes.
fn is_boxes(geometry: &Geometry) -> bool
    ensures { result ≡ is_boxes geometry.now }
{
    matches!(geometry, Geometry::Boxes { .. })
}

// Whether geometries are all of instances.
fn are_instances(geometries: &[Geometry]) -> bool
    ensures { result ≡ list_all is_instances geometries.now }
{
    geometries.iter().all(|geometry| is_instances(geometry))
}

// Whether a geometry is of instances.
fn is_instances(geometry: &Geometry) -> bool
    ensures { result ≡ is_instances geometry.now }
{
    matches!(geometry, Geometry::Instances { .. })
}

/// V9 of a build: the least info that prefers both a fast trace and a fast build. (The valid usage
/// of VkAccelerationStructureBuildGeometryInfoKHR.)
pub fn first_preferring_both(infos: &Listed<Info>) -> Option<Place>
    ensures { result ≡ first_part prefers_both infos.now }
{
    part(position_of_preferring_both(infos.as_slice()))
}

// The number of that info.
fn position_of_preferring_both(infos: &[Info]) -> Option<usize>
    requires { length infos.now ≤ 67108864 }
    ensures value { result ≡ position prefers_both infos.now }
    ensures few { IfSome result (λ k. k < 2 ^ 32) }
{
    infos.iter().position(|info| prefers_both(info))
}

// Whether an info prefers both a fast trace and a fast build.
fn prefers_both(info: &Info) -> bool
    ensures { result ≡ prefers_both info.now }
{
    info.flags.contains(BuildFlags::PREFER_FAST_TRACE)
        && info.flags.contains(BuildFlags::PREFER_FAST_BUILD)
}

/// V10 of a build, but for the number of its infos: the least info that has too many geometries,
/// primitives or uses. (VkPhysicalDeviceAccelerationStructurePropertiesKHR; own: the limits.)
pub fn first_too_large(status: &Status, infos: &Listed<Info>) -> Option<Place>
    ensures { result ≡ first_part (is_too_large status.now) infos.now }
{
    part(position_of_too_large(status, infos.as_slice()))
}

// The number of that info.
fn position_of_too_large(status: &Status, infos: &[Info]) -> Option<usize>
    requires { length infos.now ≤ 67108864 }
    ensures value { result ≡ position (is_too_large status.now) infos.now }
    ensures few { IfSome result (λ k. k < 2 ^ 32) }
{
    infos.iter().position(|info| is_too_large(status, info))
}

// Whether an info has too much.
fn is_too_large(status: &Status, info: &Info) -> bool
    ensures { result ≡ is_too_large status.now info.now }
{
    let geometries = info.geometries.as_slice();
    is_too_many(
        is_top_at(status, info.dst),
        geometries.len(),
        primitives(geometries),
    ) || 4096 < info.uses.as_slice().len()
}

/// Whether there are more geometries than a structure may have, or more primitives in them than a
/// top or a bottom may have: 256; 2^16 or 2^20. (Own: the limits.)
pub fn is_too_many(top: bool, geometries: usize, total: u128) -> bool
    ensures { result ≡ are_too_many top geometries total }
{
    256 < geometries || most_primitives(top) < total
}

// The most primitives of a structure: instances of a top, triangles or boxes of a bottom.
fn most_primitives(top: bool) -> u128
    ensures { result ≡ most_primitives top }
{
    if top { 65536 } else { 1048576 }
}

/// V11 of a build: the least info whose destination is too small. (The valid usage of
/// vkCmdBuildAccelerationStructuresKHR; own: the sizes.)
pub fn first_too_small(status: &Status, infos: &Listed<Info>) -> Option<Place>
    ensures { result ≡ first_part (λ (info : AnInfo). is_too_small status.now info info.mode) infos.now }
{
    part(position_of_too_small(status, infos.as_slice()))
}

// The number of that info.
fn position_of_too_small(status: &Status, infos: &[Info]) -> Option<usize>
    requires { length infos.now ≤ 67108864 }
    ensures value { result ≡ position (λ (info : AnInfo). is_too_small status.now info info.mode) infos.now }
    ensures few { IfSome result (λ k. k < 2 ^ 32) }
{
    infos.iter().position(|info| is_too_small(status, info))
}

// Whether the destination of an info is too small.
fn is_too_small(status: &Status, info: &Info) -> bool
    ensures { result ≡ is_too_small status.now info.now info.now.mode }
{
    match info.mode {
        BuildMode::Build => {
            let geometries = info.geometries.as_slice();
            u128::from(made_size(status, info.dst))
                < structure_size(geometries.len(), primitives(geometries))
        }
        BuildMode::Update => is_smaller_update(status, info.dst, info.src),
    }
}

// Whether the source of an update, where there is one, is another structure and larger.
fn is_smaller_update(status: &Status, dst: u32, src: Option<u32>) -> bool
    ensures { result ≡ is_smaller_update status.now dst src }
{
    match src {
        Some(id) => id != dst && is_smaller(status, dst, id),
        None => false,
    }
}
