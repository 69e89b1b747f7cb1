ghost use Rattle.std.specs.Prelude.{◌≡◌, ◌≤◌, ◌<◌, ◌++◌, IfSome, OnOk, IfOk, Some};
ghost use Rattle.std.specs.Prelude.{length, option_copied, option_map, slice_get};
ghost use Rattle.std.specs.Option.{option_to_list};
ghost use Rattle.ray_contents.specs.Bounds.{KeepsBounds};
ghost use Rattle.ray_flags.specs.Admission.{AsksBoth, ForcesBoth};
ghost use Rattle.ray_geometries.specs.Contents.{bounds_of};
ghost use Rattle.ray_bottom.specs.Trees as bottom_trees;
ghost use Rattle.ray_top.specs.Trees.{without_tree};
ghost use Rattle.ray_candidates.specs.Candidates.{found_at, found_in, found_in_geometry};
ghost use Rattle.ray_candidates.specs.Candidates.{found_in_instance, found_in_structure, joined};
ghost use Rattle.ray_candidates.specs.Standing.{AreStanding, structures_in};
ghost use Rattle.ray_candidates.specs.Telling.{IsPlaceable, placed_value};
ghost use Rattle.ray_top.specs.Instances.{instance_value};

use crate::finding::find;
use crate::placed::Placed;
use ray_bottom::{Bottom, Bottoms};
use ray_flags::{RayFlags, effective};
use ray_geom::{Ray, Steps};
use ray_query::Found;
use ray_top::{Instance, Top};
use std::alloc::{AllocError as NoMemory, Global};
use std::sync::ledger::Ledger;

// What the ray finds of all instances, in order of their numbers.
pub(crate) fn gather<L: Ledger>(
    alloc: Global,
    top: &Top,
    bottoms: &Bottoms,
    ray: &Ray,
    flags: RayFlags,
    mask: u8,
    steps: &mut Steps<L>,
) -> Result<Vec<Found>, NoMemory>
    requires standing { AreStanding (without_tree top.now) (structures_in bottoms.now) }
    requires flags_agree { ¬ AsksBoth flags }
    ensures value { IfOk result (λ found. found.items
        ≡ found_in top.now.contents (structures_in bottoms.now) ray.now flags mask) }
    ensures rising { steps.old ≤ steps.new }
{
    let mut found = Vec::new(alloc);
    for number in 0..top.len() {
        let instance = top.active_instance(number);
        add_instance(
            &mut found, bottoms, number, instance, ray, flags, mask, steps,
        )?;
    }
    Ok(found)
}

// Adds what the ray finds of an instance, if it is active and its mask is seen.
fn add_instance<L: Ledger>(
    found: &mut Vec<Found>,
    bottoms: &Bottoms,
    number: u32,
    instance: Option<&Instance>,
    ray: &Ray,
    flags: RayFlags,
    mask: u8,
    steps: &mut Steps<L>,
) -> Result<(), NoMemory>
    requires placeable { IfSome (option_copied instance) (λ i.
        IsPlaceable (structures_in bottoms.now) (instance_value i)) }
    requires flags_agree { ¬ AsksBoth flags }
    ensures value { OnOk result (found.new.items ≡ found.old.items
        ++ found_in_instance (structures_in bottoms.now) ray.now flags mask number
        (option_map instance_value (option_copied instance.entry))) }
    ensures rising { steps.old ≤ steps.new }
{
    let Some(instance) = instance else {
        return Ok(());
    };
    if instance.mask & mask == 0 {
        return Ok(());
    }
    let Some(bottom) = bottoms.get(instance.id) else {
        return Ok(());
    };
    add_structure(found, bottom, number, instance, ray, flags, steps)
}

// Adds what the ray finds of the structure of an instance.
fn add_structure<L: Ledger>(
    found: &mut Vec<Found>,
    bottom: &Bottom,
    number: u32,
    instance: &Instance,
    ray: &Ray,
    flags: RayFlags,
    steps: &mut Steps<L>,
) -> Result<(), NoMemory>
    requires kept { KeepsBounds instance.now.matrix (bounds_of bottom.now.geometries) }
    requires instance_agrees { ¬ ForcesBoth instance.now.flags }
    requires flags_agree { ¬ AsksBoth flags }
    ensures value { OnOk result (found.new.items ≡ found.old.items
        ++ found_in_structure ray.now flags number (instance_value instance.now)
        (Some (bottom_trees.without_tree bottom.now))) }
    ensures rising { steps.old ≤ steps.new }
{
    for geometry in 0..bottom.geometries() {
        add_geometry(found, bottom, number, instance, geometry, ray, flags, steps)?;
    }
    Ok(())
}

// Adds what the ray finds of a geometry of the structure.
fn add_geometry<L: Ledger>(
    found: &mut Vec<Found>,
    bottom: &Bottom,
    number: u32,
    instance: &Instance,
    geometry: u32,
    ray: &Ray,
    flags: RayFlags,
    steps: &mut Steps<L>,
) -> Result<(), NoMemory>
    requires within { geometry < length bottom.now.geometries }
    requires kept { KeepsBounds instance.now.matrix (bounds_of bottom.now.geometries) }
    requires instance_agrees { ¬ ForcesBoth instance.now.flags }
    requires flags_agree { ¬ AsksBoth flags }
    ensures value { OnOk result (found.new.items ≡ found.old.items
        ++ found_in_geometry ray.now flags bottom.now.geometries number
        (instance_value instance.now) geometry (slice_get bottom.now.geometries geometry)) }
    ensures rising { steps.old ≤ steps.new }
{
    let opaque = effective(bottom.opaque(geometry), instance.flags, flags);
    let at = Placed {
        number,
        instance,
        geometry,
        opaque,
    };
    add_primitives(
        found,
        bottom,
        &at,
        bottom.count(geometry),
        ray,
        flags,
        steps,
    )
}

// Adds what the ray finds of the first primitives of a geometry.
fn add_primitives<L: Ledger>(
    found: &mut Vec<Found>,
    bottom: &Bottom,
    at: &Placed<'_>,
    count: u32,
    ray: &Ray,
    flags: RayFlags,
    steps: &mut Steps<L>,
) -> Result<(), NoMemory>
    requires { KeepsBounds at.now.instance.now.matrix (bounds_of bottom.now.geometries) }
    ensures value { OnOk result (found.new.items ≡ found.old.items
        ++ joined (found_at ray.now flags bottom.now.geometries (placed_value at.now)) count) }
    ensures rising { steps.old ≤ steps.new }
{
    for primitive in 0..count {
        add(found, find(bottom, at, primitive, ray, flags, steps))?;
    }
    Ok(())
}

// Adds one, if there is one.
fn add(found: &mut Vec<Found>, one: Option<Found>) -> Result<(), NoMemory>
    ensures { OnOk result (found.new.items ≡ found.old.items ++ option_to_list one) }
{
    if let Some(one) = one {
        found.push(one)?;
    }
    Ok(())
}
