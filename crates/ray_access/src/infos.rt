ghost use Rattle.std.specs.Prelude.{◌≡◌, OnOk};
ghost use Rattle.std.specs.List.{flat_map};
ghost use Rattle.ray_rules.specs.Access.{at_scratch, info_accesses, input_reads, structure_reads};
ghost use Rattle.ray_rules.specs.Ranges.{scratch_range};
ghost use Rattle.ray_access.specs.Axis.{TouchFits};
ghost use Rattle.ray_access.specs.Lists.{Adds};

use crate::lists::{add, add_inputs, add_structure_if, add_structures};
use crate::touched::Touched;
use ray_cmd::{Geometry, Info, Listed};
use ray_rules::{AccessType, Reach, Touch};
use ray_status::{Status, scratch_range};
use std::alloc::AllocError as NoMemory;

// Puts what an info reads at the end.
pub(crate) fn add_info_reads(
    list: &mut Vec<Touched>,
    status: &Status,
    info: &Info,
) -> Result<(), NoMemory>
    ensures { OnOk result (Adds status.now (info_accesses status.now.buffers info.now).reads list.old.items list.new.items) }
{
    add_listed_geometries(list, status, &info.geometries)?;
    add_uses(list, status, &info.uses)?;
    add_structure_if(list, status, info.src)?;
    add(list, status, scratch(info, AccessType::StructureRead))
}

// Puts what an info writes at the end.
#[tactic(auto, using(crate::proofs::Joining::adds_then))]
pub(crate) fn add_info_writes(
    list: &mut Vec<Touched>,
    status: &Status,
    info: &Info,
) -> Result<(), NoMemory>
    ensures { OnOk result (Adds status.now (info_accesses status.now.buffers info.now).writes list.old.items list.new.items) }
{
    let access = AccessType::StructureWrite;
    let reach = Reach::Structure(info.dst);
    add(list, status, Touch { access, reach })?;
    add(list, status, scratch(info, access))
}

// An access of the scratch memory of an info.
fn scratch(info: &Info, access: AccessType) -> Touch
    ensures value { result ≡ at_scratch access (scratch_range info.now) }
    ensures fits { TouchFits result }
{
    Touch {
        access,
        reach: Reach::Scratch(scratch_range(info)),
    }
}

// Puts the reads of listed structures at the end.
fn add_uses(list: &mut Vec<Touched>, status: &Status, uses: &Listed<u32>) -> Result<(), NoMemory>
    ensures { OnOk result (Adds status.now (structure_reads uses.now) list.old.items list.new.items) }
{
    add_structures(list, status, uses.as_slice())
}

// Puts what listed geometries read at the end.
fn add_listed_geometries(
    list: &mut Vec<Touched>,
    status: &Status,
    geometries: &Listed<Geometry>,
) -> Result<(), NoMemory>
    ensures { OnOk result
        (Adds status.now (flat_map (input_reads status.now.buffers) geometries.now) list.old.items list.new.items) }
{
    add_geometries(list, status, geometries.as_slice())
}

// Puts what geometries read at the end.
#[tactic(auto, using(crate::proofs::Joining::adds_none))]
fn add_geometries(
    list: &mut Vec<Touched>,
    status: &Status,
    geometries: &[Geometry],
) -> Result<(), NoMemory>
    ensures { OnOk result
        (Adds status.now (flat_map (input_reads status.now.buffers) geometries.now) list.old.items list.new.items) }
{
    for geometry in geometries {
        add_inputs(list, status, geometry)?;
    }
    Ok(())
}
