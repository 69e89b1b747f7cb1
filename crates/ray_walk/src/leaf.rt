//! What is found in a leaf of the structure of an instance.
ghost use Rattle.std.specs.Prelude.{◌≡◌, ◌+◌, ◌<◌, ◌≤◌, All, IfSome, OnOk, Some, length, map};
ghost use Rattle.ray_contents.specs.Bounds.{KeepsBounds};
ghost use Rattle.ray_geometries.specs.Contents.{bounds_of};
ghost use Rattle.ray_leaves.specs.LeafItems.{IsItemOf, place_of_item};
ghost use Rattle.ray_leaves.specs.Lists.{item_in, part_of};
ghost use Rattle.ray_bottom.specs.Meeting.{raw_meet_value};
ghost use Rattle.ray_bottom.specs.Trees.{places_below};
ghost use Rattle.ray_flags.specs.Admission.{AsksBoth, ForcesBoth};
ghost use Rattle.ray_wide.specs.Subtrees.{IsWideLeaf};
ghost use Rattle.ray_nearest.specs.Adding.{Adds, AddsFound};
ghost use Rattle.ray_geom.specs.ObjectRay.{object_of};
ghost use Rattle.ray_window.specs.Windows.{window_of};
ghost use Rattle.ray_walk.specs.Scenes.{AddsFoundAt, IsLookedAt};
ghost use Rattle.ray_candidates.specs.Placements.{found_by_place};
ghost use Rattle.ray_candidates.specs.Placements.{met_at_place};
ghost use Rattle.ray_walk.specs.Scenes.{placement_value};
ghost use Rattle.ray_candidates.specs.Telling.{found_raw};
ghost use Rattle.ray_walk.specs.Traced.{found_at_place, placement_at};

use crate::aim::{Aim, sight_at};
use crate::held::Looked;
use crate::meeting::is_passed;
use crate::view::View;
use ray_bottom::{Bottom, LeafItem, LeafPart, PrimPlace, RawMeet};
use ray_candidates::{Placed, admit};
use ray_flags::{RayFlags, effective};
use ray_geom::{Ratio, Ray, Steps};
use ray_lanes::Window;
use ray_nearest::{NoMemory, Turns};
use ray_query::RawFound;
use ray_wide::WideLeaf;
use std::sync::ledger::Ledger;

// Adds the turns of what is found in a leaf, a step for each primitive.
pub(crate) fn open_leaf<L: Ledger>(
    view: &View<'_>,
    looked: &Looked<'_>,
    aim: &mut Aim,
    i: u32,
    n: u32,
    limit: Option<Ratio>,
    turns: &mut Turns,
    steps: &mut Steps<L>,
) -> Result<(), NoMemory>
    requires looked { IsLookedAt view.now i looked.now aim.old }
    requires within { n < length looked.now.bottom.now.tree.nodes }
    ensures found { OnOk result (AddsFoundAt limit view.now i (placement_value looked.now)
        (places_below looked.now.bottom.now n) turns.old turns.new) }
    ensures steps { OnOk result (steps.new
        ≡ steps.old + length (places_below looked.now.bottom.now n)) }
    ensures rising { steps.old ≤ steps.new }
    ensures looked { IsLookedAt view.now i looked.now aim.new }
{
    let window = sight_at(aim, limit);
    let items = items_of(looked.bottom, aim.recent, n, steps);
    add_items(view, looked, &window, i, n, items, limit, turns)
}

// The items of a leaf, by its places, if it is the leaf that was kept. It takes a step for each.
fn items_of<'a, L: Ledger>(
    bottom: &'a Bottom,
    recent: Option<WideLeaf>,
    n: u32,
    steps: &mut Steps<L>,
) -> LeafPart<'a>
    requires within { n < length bottom.now.tree.nodes }
    requires recent { IfSome recent (IsWideLeaf bottom.now.tree.nodes) }
    ensures places { map place_of_item (part_of result) ≡ places_below bottom.now n }
    ensures held { All (IsItemOf bottom.now.geometries) (part_of result) }
    ensures cost { steps.new ≡ steps.old + length (part_of result) }
{
    match recent {
        Some(leaf) => {
            if leaf.node == n {
                bottom.items_of_leaf(leaf, steps)
            } else {
                bottom.leaf_items(n, steps)
            }
        }
        None => bottom.leaf_items(n, steps),
    }
}

// The same of these items, by the window of the ray up to the limit, if there is one. The leaf's
// number stands in contracts alone.
fn add_items(
    view: &View<'_>,
    looked: &Looked<'_>,
    window: &Option<Window>,
    i: u32,
    _n: u32,
    items: LeafPart<'_>,
    limit: Option<Ratio>,
    turns: &mut Turns,
) -> Result<(), NoMemory>
    requires is_it { placement_at view.now i ≡ Some (placement_value looked.now) }
    requires window { IfSome window.now (λ x. x ≡ window_of
        (object_of view.now.ray looked.now.instance.now.matrix) limit) }
    requires places { map place_of_item (part_of items)
        ≡ places_below looked.now.bottom.now _n }
    requires held { All (IsItemOf looked.now.bottom.now.geometries) (part_of items) }
    ensures { OnOk result (AddsFoundAt limit view.now i (placement_value looked.now)
        (places_below looked.now.bottom.now _n) turns.old turns.new) }
{
    for k in 0..items.len() {
        add_item(view, looked, window, i, items, k, limit, turns)?;
    }
    Ok(())
}

// Adds the turn of what is found of a primitive, one of these. Where there is a window that doesn't
// meet the primitive nothing is found up to the limit, and no more is asked.
fn add_item(
    view: &View<'_>,
    looked: &Looked<'_>,
    window: &Option<Window>,
    i: u32,
    items: LeafPart<'_>,
    k: usize,
    limit: Option<Ratio>,
    turns: &mut Turns,
) -> Result<(), NoMemory>
    requires is_it { placement_at view.now i ≡ Some (placement_value looked.now) }
    requires window { IfSome window.now (λ x. x ≡ window_of
        (object_of view.now.ray looked.now.instance.now.matrix) limit) }
    requires within { k < length (part_of items) }
    requires held { IsItemOf looked.now.bottom.now.geometries (item_in items k) }
    ensures { OnOk result (Adds (AddsFound limit)
        (found_at_place view.now i (placement_value looked.now) (item_in items.entry k).place)
        turns.old turns.new) }
{
    view.known();
    let points = items.get(k).points;
    if is_passed(window, &points) {
        return Ok(());
    }
    let item = items.get(k);
    let found = find_at(view, looked, i, &item);
    push(turns, limit, found)
}

// What is found of a primitive.
fn find_at(view: &View<'_>, looked: &Looked<'_>, i: u32, item: &LeafItem) -> Option<RawFound>
    requires is_it { placement_at view.now i ≡ Some (placement_value looked.now) }
    requires held { IsItemOf looked.now.bottom.now.geometries item.now }
    ensures { found_raw result
        ≡ found_at_place view.now i (placement_value looked.now) item.now.place }
{
    view.known();
    find_in(looked, i, item, view.ray(), view.flags())
}

// The same, where the transform keeps the bounds of the structure, and flags agree.
fn find_in(
    looked: &Looked<'_>,
    i: u32,
    item: &LeafItem,
    ray: &Ray,
    flags: RayFlags,
) -> Option<RawFound>
    requires held { IsItemOf looked.now.bottom.now.geometries item.now }
    requires kept { KeepsBounds looked.now.instance.now.matrix
        (bounds_of looked.now.bottom.now.geometries) }
    requires instance_agrees { ¬ ForcesBoth looked.now.instance.now.flags }
    requires flags_agree { ¬ AsksBoth flags }
    ensures { found_raw result ≡ found_by_place ray.now flags i
        (placement_value looked.now) item.now.place }
{
    let matrix = &looked.instance.matrix;
    let meet = looked.bottom.test_item(item, ray, matrix)?;
    find_met(looked, i, item.place, meet, flags)
}

// What is found of a primitive at a place, where this is met there. Whether it counts as opaque
// isn't asked before, since most primitives aren't met.
fn find_met(
    looked: &Looked<'_>,
    i: u32,
    place: PrimPlace,
    meet: RawMeet,
    flags: RayFlags,
) -> Option<RawFound>
    requires instance_agrees { ¬ ForcesBoth looked.now.instance.now.flags }
    requires flags_agree { ¬ AsksBoth flags }
    ensures { found_raw result ≡ met_at_place flags i (placement_value looked.now) place
        (Some (raw_meet_value meet)) }
{
    if place.geometry >= looked.bottom.geometries() {
        return None;
    }
    let opaque = effective(
        looked.bottom.opaque(place.geometry),
        looked.instance.flags,
        flags,
    );
    let at = Placed {
        number: i,
        instance: looked.instance,
        geometry: place.geometry,
        opaque,
    };
    admit(&at, place.primitive, meet, flags)
}

// Adds the turn of what is found, if anything is.
fn push(turns: &mut Turns, limit: Option<Ratio>, found: Option<RawFound>) -> Result<(), NoMemory>
    ensures { OnOk result (Adds (AddsFound limit) (found_raw found) turns.old turns.new) }
{
    match found {
        Some(found) => turns.push_found(limit, found),
        None => Ok(()),
    }
}
