//! What is found by all strings of a certificate.
ghost use Rattle.std.specs.Prelude.{◌≡◌, ◌+◌, ◌*◌, ◌∷◌, ◌<◌, ◌≤◌, [], IfOk, IfSome, drop, length};
ghost use Rattle.std.specs.Prelude.{option_and_then, option_copied, option_map, slice_get};
ghost use Rattle.ray_contents.specs.Bounds.{KeepsBounds};
ghost use Rattle.ray_flags.specs.Admission.{AsksBoth, ForcesBoth};
ghost use Rattle.ray_geometries.specs.Contents.{bounds_of};
ghost use Rattle.ray_top.specs.Instances.{instance_value};
ghost use Rattle.ray_top.specs.Trees.{without_tree};
ghost use Rattle.ray_candidates.specs.Standing.{AreStanding, structures_in};
ghost use Rattle.ray_candidates.specs.Telling.{IsPlaceable};
ghost use Rattle.ray_cert.specs.Certificates.{digits_in};
ghost use Rattle.ray_cert.specs.Checking.{end_of, gathered_from, placement_value};
ghost use Rattle.ray_cert.specs.Checking.{string_taken};
ghost use Rattle.ray_cert.specs.Parts.{AreStatedFor, IsStatedFor, part_of, parts_by, parts_of_ray};
ghost use Rattle.ray_cert.specs.Parts.{placement_of};

use crate::cert::Digits;
use crate::stated::StatedBottoms;
use crate::strings::check_string;
use crate::told_ray::{PlacedTree, ToldRay};
use ray_geom::Steps;
use ray_query::Found;
use ray_top::{Instance, Top};
use std::alloc::{AllocError as NoMemory, Global};
use std::sync::ledger::Ledger;

// The string of a number.
fn string_at(strings: &[Digits], k: usize) -> Option<&Digits>
    ensures value { option_copied result ≡ slice_get strings.now k }
    ensures within { IfSome (option_copied result) (λ s. k < length strings.now) }
{
    strings.get(k)
}

// Adds what is found by the next string, for the tree of an instance's structure: the number of the
// string after it. None where it doesn't fit, or there is none.
fn check_next<L: Ledger>(
    alloc: Global,
    found: &mut Vec<Found>,
    placed: &PlacedTree<'_>,
    told: &ToldRay<'_>,
    taken: usize,
    steps: &mut Steps<L>,
) -> Result<Option<usize>, NoMemory>
    requires kept { KeepsBounds placed.now.instance.now.matrix
        (bounds_of placed.now.bottom.now.geometries) }
    requires instance_agrees { ¬ ForcesBoth placed.now.instance.now.flags }
    requires flags_agree { ¬ AsksBoth told.now.flags }
    ensures value { let p = placement_value placed.now.instance.now placed.now.bottom.now in
        let part = part_of told.now.ray.now told.now.flags placed.now.number p
        placed.now.tree.now in
        IfOk result (λ after.
        option_map (λ k. (found.new.items, drop k told.now.strings.now)) after
        ≡ string_taken told.now.limit.now found.old.items (part ∷ [])
        (drop taken told.now.strings.now)) }
    ensures cost { let strings = told.now.strings.now in IfOk result (λ after.
        steps.new + 5 * digits_in (drop (end_of (length strings) after) strings)
        ≤ steps.old + 5 * digits_in (drop taken strings)) }
    ensures rising { steps.old ≤ steps.new }
{
    match string_at(told.strings, taken) {
        None => Ok(None),
        Some(string) => {
            let digits = string.as_slice();
            let fits = check_string(alloc, found, placed, told, digits, steps)?;
            if fits { Ok(Some(taken + 1)) } else { Ok(None) }
        }
    }
}

// The same for an instance, which has a string where it is active and its mask is seen.
fn check_instance<L: Ledger>(
    alloc: Global,
    found: &mut Vec<Found>,
    stated: &StatedBottoms<'_>,
    number: u32,
    instance: Option<&Instance>,
    told: &ToldRay<'_>,
    taken: usize,
    steps: &mut Steps<L>,
) -> Result<Option<usize>, NoMemory>
    requires placeable { IfSome (option_copied instance) (λ i.
        IsPlaceable (structures_in stated.now.bottoms.now) (instance_value i)) }
    requires stated { IfSome (option_copied instance) (λ i.
        IsStatedFor stated.now.bottoms.now stated.now.trees.now (instance_value i)) }
    requires flags_agree { ¬ AsksBoth told.now.flags }
    ensures value { IfOk result (λ after.
        option_map (λ k. (found.new.items, drop k told.now.strings.now)) after
        ≡ string_taken told.now.limit.now found.old.items
        (parts_by told.now.ray.now told.now.flags number
        (option_and_then (placement_of stated.now.bottoms.now told.now.mask)
        (option_map instance_value (option_copied instance.entry))))
        (drop taken told.now.strings.now)) }
    ensures cost { let strings = told.now.strings.now in IfOk result (λ after.
        steps.new + 5 * digits_in (drop (end_of (length strings) after) strings)
        ≤ steps.old + 5 * digits_in (drop taken strings)) }
    ensures rising { steps.old ≤ steps.new }
{
    let Some(instance) = instance else {
        return Ok(Some(taken));
    };
    if instance.mask & told.mask == 0 {
        return Ok(Some(taken));
    }
    let Some(bottom) = stated.bottoms.get(instance.id) else {
        return Ok(Some(taken));
    };
    let Some(tree) = stated.trees.tree(instance.id) else {
        return Ok(None);
    };
    let placed = PlacedTree {
        number,
        instance,
        bottom,
        tree,
    };
    check_next(alloc, found, &placed, told, taken, steps)
}

// What is found by all strings. None where one doesn't fit, or they are more or fewer than the
// instances that have one.
pub(crate) fn gather_tested<L: Ledger>(
    alloc: Global,
    top: &Top,
    stated: &StatedBottoms<'_>,
    told: &ToldRay<'_>,
    steps: &mut Steps<L>,
) -> Result<Option<Vec<Found>>, NoMemory>
    requires standing { AreStanding (without_tree top.now) (structures_in stated.now.bottoms.now) }
    requires stated { AreStatedFor top.now.contents stated.now.bottoms.now stated.now.trees.now }
    requires flags_agree { ¬ AsksBoth told.now.flags }
    ensures value { IfOk result (λ found. option_map (λ v. v.items) found
        ≡ gathered_from told.now.limit.now []
        (parts_of_ray top.now.contents stated.now.bottoms.now told.now.ray.now told.now.flags
        told.now.mask) told.now.strings.now) }
    ensures cost { IfOk result (λ found.
        steps.new ≤ steps.old + 5 * digits_in told.now.strings.now) }
    ensures rising { steps.old ≤ steps.new }
{
    let mut found = Vec::new(alloc);
    let mut taken = 0;
    for number in 0..top.len() {
        let instance = top.active_instance(number);
        let after = check_instance(
            alloc, &mut found, stated, number, instance, told, taken, steps,
        )?;
        match after {
            None => return Ok(None),
            Some(next) => taken = next,
        }
    }
    if taken < told.strings.len() {
        return Ok(None);
    }
    Ok(Some(found))
}
