ghost use Rattle.std.specs.Prelude.{◌≡◌, ◌<◌, ◌≤◌, ◌^◌, IfSome, length};
ghost use Rattle.std.specs.List.{position};
ghost use Rattle.ray_rules.specs.Places.{first_part};
ghost use Rattle.ray_rules.specs.Ranges.{is_outside_if};
ghost use Rattle.ray_rules.specs.Spans.{info_reaches_out, input_reaches_out, scratch_reaches_out};

use crate::first::part;
use ray_cmd::{Geometry, Info, Listed, Place};
use ray_rules::ByteRange;
use ray_status::{Status, inputs_needed, scratch_range};

/// V4 of a build: the least info of which a geometry needs bytes that aren't whole within their
/// buffer. (Own; the valid usage of VkAccelerationStructureBuildRangeInfoKHR.)
pub fn first_reaching_out(status: &Status, infos: &Listed<Info>) -> Option<Place>
    ensures { result ≡ first_part (info_reaches_out status.now) infos.now }
{
    part(position_of_reaching_out(status, infos.as_slice()))
}

// The number of that info.
fn position_of_reaching_out(status: &Status, infos: &[Info]) -> Option<usize>
    requires { length infos.now ≤ 67108864 }
    ensures value { result ≡ position (info_reaches_out status.now) infos.now }
    ensures few { IfSome result (λ k. k < 2 ^ 32) }
{
    infos.iter().position(|info| info_reaches_out(status, info))
}

// Whether what the geometries of an info need isn't whole within its buffers.
fn info_reaches_out(status: &Status, info: &Info) -> bool
    ensures { result ≡ info_reaches_out status.now info.now }
{
    info.geometries
        .as_slice()
        .iter()
        .any(|geometry| input_reaches_out(status, geometry))
}

// Whether what a geometry needs isn't whole within its buffers.
fn input_reaches_out(status: &Status, geometry: &Geometry) -> bool
    ensures { result ≡ input_reaches_out status.now geometry.now }
{
    let needed = inputs_needed(geometry);
    needed.iter().any(|range| is_outside_if(status, *range))
}

// Whether a range is there, and isn't whole within its buffer.
fn is_outside_if(status: &Status, range: Option<ByteRange>) -> bool
    ensures { result ≡ is_outside_if status.now.buffers range }
{
    match range {
        Some(range) => status.is_outside(range),
        None => false,
    }
}

/// V12 of a build: the least info whose scratch memory isn't whole within its buffer. (The valid
/// usage of VkAccelerationStructureBuildGeometryInfoKHR; own: the sizes.)
pub fn first_with_short_scratch(status: &Status, infos: &Listed<Info>) -> Option<Place>
    ensures { result ≡ first_part (scratch_reaches_out status.now) infos.now }
{
    part(position_of_with_short_scratch(status, infos.as_slice()))
}

// The number of that info.
fn position_of_with_short_scratch(status: &Status, infos: &[Info]) -> Option<usize>
    requires { length infos.now ≤ 67108864 }
    ensures value { result ≡ position (scratch_reaches_out status.now) infos.now }
    ensures few { IfSome result (λ k. k < 2 ^ 32) }
{
    infos
        .iter()
        .position(|info| scratch_reaches_out(status, info))
}

// Whether the scratch memory of an info isn't whole within its buffer.
fn scratch_reaches_out(status: &Status, info: &Info) -> bool
    ensures { result ≡ scratch_reaches_out status.now info.now }
{
    status.is_outside(scratch_range(info))
}
