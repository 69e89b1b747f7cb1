//! What a ray finds of the items that are tested.
ghost use Rattle.std.specs.Prelude.{◌≡◌, ◌+◌, ◌++◌, ◌≤◌, OnOk, Some, length};
ghost use Rattle.std.specs.List.{flat_map};
ghost use Rattle.std.specs.Option.{option_to_list};
ghost use Rattle.ray_contents.specs.Bounds.{KeepsBounds};
ghost use Rattle.ray_flags.specs.Admission.{AsksBoth, ForcesBoth};
ghost use Rattle.ray_geometries.specs.Contents.{bounds_of};
ghost use Rattle.ray_bottom.specs.Meeting.{raw_meet_value};
ghost use Rattle.ray_candidates.specs.Placements.{found_by_item, found_by_place, met_at_place};
ghost use Rattle.ray_candidates.specs.Telling.{found_raw};
ghost use Rattle.ray_cert.specs.Checking.{placement_value};

use crate::places::place_of_item;
use ray_bottom::{Bottom, PrimPlace, RawMeet};
use ray_candidates::{Placed, admit};
use ray_flags::{RayFlags, effective};
use ray_geom::{Ray, Steps};
use ray_query::{Found, RawFound};
use ray_top::Instance;
use std::alloc::AllocError as NoMemory;
use std::sync::ledger::Ledger;

// Adds what the ray finds of these items of an instance's structure. It takes a step for each.
pub(crate) fn find_items<L: Ledger>(
    found: &mut Vec<Found>,
    bottom: &Bottom,
    number: u32,
    instance: &Instance,
    items: &[u32],
    ray: &Ray,
    flags: RayFlags,
    steps: &mut Steps<L>,
) -> Result<(), NoMemory>
    requires kept { KeepsBounds instance.now.matrix (bounds_of bottom.now.geometries) }
    requires instance_agrees { ¬ ForcesBoth instance.now.flags }
    requires flags_agree { ¬ AsksBoth flags }
    ensures value { OnOk result (found.new.items ≡ found.old.items ++ flat_map
        (found_by_item ray.now flags number (placement_value instance.now bottom.now)) items.now) }
    ensures cost { OnOk result (steps.new ≡ steps.old + length items.now) }
    ensures rising { steps.old ≤ steps.new }
{
    for item in items {
        find_item(found, bottom, number, instance, *item, ray, flags, steps)?;
    }
    Ok(())
}

// Adds what the ray finds of one of them.
fn find_item<L: Ledger>(
    found: &mut Vec<Found>,
    bottom: &Bottom,
    number: u32,
    instance: &Instance,
    item: u32,
    ray: &Ray,
    flags: RayFlags,
    steps: &mut Steps<L>,
) -> Result<(), NoMemory>
    requires kept { KeepsBounds instance.now.matrix (bounds_of bottom.now.geometries) }
    requires instance_agrees { ¬ ForcesBoth instance.now.flags }
    requires flags_agree { ¬ AsksBoth flags }
    ensures value { OnOk result (found.new.items ≡ found.old.items
        ++ found_by_item ray.now flags number (placement_value instance.now bottom.now) item) }
    ensures step { steps.new ≡ steps.old + 1 }
{
    let place = place_of_item(bottom, item);
    add(
        found,
        find(bottom, number, instance, place, ray, flags, steps),
    )
}

// Adds one, if there is one.
fn add(found: &mut Vec<Found>, one: Option<Found>) -> Result<(), NoMemory>
    ensures { OnOk result (found.new.items ≡ found.old.items ++ option_to_list one) }
{
    if let Some(one) = one {
        found.push(one)?;
    }
    Ok(())
}

// What the ray finds of the primitive at a place. It takes one step.
fn find<L: Ledger>(
    bottom: &Bottom,
    number: u32,
    instance: &Instance,
    place: PrimPlace,
    ray: &Ray,
    flags: RayFlags,
    steps: &mut Steps<L>,
) -> Option<Found>
    requires kept { KeepsBounds instance.now.matrix (bounds_of bottom.now.geometries) }
    requires instance_agrees { ¬ ForcesBoth instance.now.flags }
    requires flags_agree { ¬ AsksBoth flags }
    ensures value { option_to_list result ≡ found_by_place ray.now flags number
        (placement_value instance.now bottom.now) place }
    ensures step { steps.new ≡ steps.old + 1 }
{
    let meet = bottom.test_prim(place, ray, &instance.matrix, steps)?;
    let found = find_met(bottom, number, instance, place, RawMeet::of(meet), flags)?;
    Some(found.reduced())
}

// What is found of a primitive at a place, where this is met there.
fn find_met(
    bottom: &Bottom,
    number: u32,
    instance: &Instance,
    place: PrimPlace,
    meet: RawMeet,
    flags: RayFlags,
) -> Option<RawFound>
    requires instance_agrees { ¬ ForcesBoth instance.now.flags }
    requires flags_agree { ¬ AsksBoth flags }
    ensures { found_raw result ≡ met_at_place flags number
        (placement_value instance.now bottom.now) place (Some (raw_meet_value meet)) }
{
    if place.geometry >= bottom.geometries() {
        return None;
    }
    let opaque = effective(bottom.opaque(place.geometry), instance.flags, flags);
    let at = Placed {
        number,
        instance,
        geometry: place.geometry,
        opaque,
    };
    admit(&at, place.primitive, meet, flags)
}
