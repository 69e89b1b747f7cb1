ghost use Rattle.std.specs.Prelude.{◌≡◌, [], ◌∷◌, OnOk};
ghost use Rattle.std.specs.Option.{option_to_list};
ghost use Rattle.ray_rules.specs.declared.access_type.AccessType.TheVariants.{StructureRead};
ghost use Rattle.ray_rules.specs.Access.{at_structure, input_reads, structure_reads};
ghost use Rattle.ray_access.specs.Axis.{TouchFits, touched};
ghost use Rattle.ray_access.specs.Lists.{Adds, input_touches};
ghost use Rattle.ray_status.specs.Limits.{FitsIf};

use crate::axis::touched;
use crate::touched::Touched;
use ray_cmd::Geometry;
use ray_rules::{AccessType, ByteRange, Reach, Touch};
use ray_status::{Status, inputs_read};
use std::alloc::AllocError as NoMemory;

// Puts one more touch at the end.
#[tactic(auto, using(crate::proofs::Joining::adds_one))]
pub(crate) fn add(list: &mut Vec<Touched>, status: &Status, touch: Touch) -> Result<(), NoMemory>
    requires { TouchFits touch }
    ensures { OnOk result (Adds status.now (touch ∷ []) list.old.items list.new.items) }
{
    list.push(touched(status, touch))?;
    Ok(())
}

// Puts the reads of structures at the end.
#[tactic(auto, using(crate::proofs::Joining::adds_none, crate::proofs::Joining::adds_next_structure))]
pub(crate) fn add_structures(
    list: &mut Vec<Touched>,
    status: &Status,
    ids: &[u32],
) -> Result<(), NoMemory>
    ensures { OnOk result (Adds status.now (structure_reads ids.now) list.old.items list.new.items) }
{
    for id in ids {
        add(list, status, structure_read(*id))?;
    }
    Ok(())
}

// Puts the read of a structure at the end, where there is one.
#[tactic(auto, using(crate::proofs::Joining::adds_none))]
pub(crate) fn add_structure_if(
    list: &mut Vec<Touched>,
    status: &Status,
    id: Option<u32>,
) -> Result<(), NoMemory>
    ensures { OnOk result
        (Adds status.now (structure_reads (option_to_list id)) list.old.items list.new.items) }
{
    match id {
        Some(id) => add(list, status, structure_read(id)),
        None => Ok(()),
    }
}

// The read of a structure.
pub(crate) fn structure_read(id: u32) -> Touch
    ensures value { result ≡ at_structure StructureRead id }
    ensures fits { TouchFits result }
{
    Touch {
        access: AccessType::StructureRead,
        reach: Reach::Structure(id),
    }
}

// Puts what a geometry reads at the end.
#[tactic(auto, using(crate::proofs::Joining::adds_three))]
pub(crate) fn add_inputs(
    list: &mut Vec<Touched>,
    status: &Status,
    geometry: &Geometry,
) -> Result<(), NoMemory>
    ensures { OnOk result
        (Adds status.now (input_reads status.now.buffers geometry.now) list.old.items list.new.items) }
{
    let [first, second, third] = inputs_read(status, geometry);
    add_input(list, status, first)?;
    add_input(list, status, second)?;
    add_input(list, status, third)
}

// Puts the read of an input at the end, where there is one.
#[tactic(auto, using(crate::proofs::Joining::adds_none))]
fn add_input(
    list: &mut Vec<Touched>,
    status: &Status,
    range: Option<ByteRange>,
) -> Result<(), NoMemory>
    requires { FitsIf range }
    ensures { OnOk result (Adds status.now (input_touches range) list.old.items list.new.items) }
{
    match range {
        Some(range) => {
            let reach = Reach::Bytes(range);
            add(
                list,
                status,
                Touch {
                    access: AccessType::ShaderRead,
                    reach,
                },
            )
        }
        None => Ok(()),
    }
}
