//! One string read along the tree of its instance's structure.
ghost use Rattle.std.specs.Prelude.{◌≡◌, ◌+◌, ◌*◌, ◌++◌, ◌≤◌, IfOk, None, Some, drop, length};
ghost use Rattle.std.specs.Prelude.{if◌then◌else◌, option_map};
ghost use Rattle.ray_contents.specs.Bounds.{KeepsBounds};
ghost use Rattle.ray_flags.specs.Admission.{AsksBoth, ForcesBoth};
ghost use Rattle.ray_geometries.specs.Contents.{bounds_of};
ghost use Rattle.ray_tree.specs.Trees.{shape_at};
ghost use Rattle.ray_cert.specs.Checking.{AreFew, behind, end_of, found_taken, is_met_in, many_in};
ghost use Rattle.ray_cert.specs.Checking.{placement_value, taken_of, whole_of};
ghost use Rattle.ray_cert.specs.Parts.{part_of};

use crate::cutting::take_node;
use crate::finding::find_items;
use crate::told_ray::{PlacedTree, ToldRay};
use ray_geom::{ObjectRay, Ratio, Steps, object_ray};
use ray_query::Found;
use ray_tree::Tree;
use std::alloc::{AllocError as NoMemory, Global};
use std::sync::ledger::Ledger;

// Reads digits from the root of a tree down, if it has one.
fn take_root<L: Ledger>(
    tree: &Tree,
    object: &ObjectRay,
    limit: &Ratio,
    digits: &[bool],
    items: &mut Vec<u32>,
    steps: &mut Steps<L>,
) -> Result<Option<usize>, NoMemory>
    ensures value { IfOk result (λ after.
        option_map (λ k. (items.new.items, drop k digits.now)) after
        ≡ behind items.old.items (taken_of (is_met_in object.now limit.now tree.now)
        tree.now.order (shape_at tree.now 0) digits.now)) }
    ensures few { IfOk result (λ after. AreFew 0 (end_of (length digits.now) after)
        (length digits.now) steps.old steps.new (length items.old.items) (length items.new.items)) }
    ensures rising { steps.old ≤ steps.new }
{
    match tree.root() {
        None => Ok(Some(0)),
        Some(root) => take_node(tree, root, object, limit, digits, 0, items, steps),
    }
}

// The items of the leaves that a whole string opens. None where it spells no cutting, or cuts off a
// node that is met up to the limit.
fn items_of_string<L: Ledger>(
    alloc: Global,
    tree: &Tree,
    object: &ObjectRay,
    limit: &Ratio,
    digits: &[bool],
    steps: &mut Steps<L>,
) -> Result<Option<Vec<u32>>, NoMemory>
    ensures value { IfOk result (λ items. option_map (λ v. v.items) items
        ≡ whole_of (taken_of (is_met_in object.now limit.now tree.now)
        tree.now.order (shape_at tree.now 0) digits.now)) }
    ensures cost { IfOk result (λ items.
        steps.new + many_in (option_map (λ v. v.items) items)
        ≤ steps.old + 5 * length digits.now) }
    ensures rising { steps.old ≤ steps.new }
{
    let mut items = Vec::new(alloc);
    match take_root(tree, object, limit, digits, &mut items, steps)? {
        None => Ok(None),
        Some(after) => {
            if after < digits.len() {
                return Ok(None);
            }
            Ok(Some(items))
        }
    }
}

// Whether a whole string fits; adds what is found of the items that it opens.
pub(crate) fn check_string<L: Ledger>(
    alloc: Global,
    found: &mut Vec<Found>,
    placed: &PlacedTree<'_>,
    told: &ToldRay<'_>,
    digits: &[bool],
    steps: &mut Steps<L>,
) -> Result<bool, NoMemory>
    requires kept { KeepsBounds placed.now.instance.now.matrix
        (bounds_of placed.now.bottom.now.geometries) }
    requires instance_agrees { ¬ ForcesBoth placed.now.instance.now.flags }
    requires flags_agree { ¬ AsksBoth told.now.flags }
    ensures value { let p = placement_value placed.now.instance.now placed.now.bottom.now in
        IfOk result (λ fits. option_map (λ gs. found.old.items ++ gs)
        (found_taken told.now.limit.now
        (part_of told.now.ray.now told.now.flags placed.now.number p placed.now.tree.now)
        digits.now)
        ≡ (if fits then Some found.new.items else None)) }
    ensures cost { IfOk result (λ fits. steps.new ≤ steps.old + 5 * length digits.now) }
    ensures rising { steps.old ≤ steps.new }
{
    let object = object_ray(told.ray, &placed.instance.matrix);
    match items_of_string(alloc, placed.tree, &object, told.limit, digits, steps)? {
        None => Ok(false),
        Some(items) => {
            find_items(
                found,
                placed.bottom,
                placed.number,
                placed.instance,
                &items,
                told.ray,
                told.flags,
                steps,
            )?;
            Ok(true)
        }
    }
}
