//! What is below a node of a scene, and what is found there.
ghost use Rattle.std.specs.Prelude.{◌≡◌, ◌+◌, ◌<◌, ◌≤◌, IfSome, OnOk, Some, None, length};
ghost use Rattle.std.specs.List.{flat_map};
ghost use Rattle.ray_geom.specs.ObjectRay.{object_of};
ghost use Rattle.ray_nearest.specs.Adding.{AddsNodes, IsOpened};
ghost use Rattle.ray_walk.specs.Scenes.{AddsWide, IsHeld, IsInWorld, IsKeeping, IsLookedAt};
ghost use Rattle.ray_walk.specs.Scenes.{placement_value};
ghost use Rattle.ray_walk.specs.Traced.{placement_at, tests};
ghost use Rattle.ray_walk.specs.WideScene.{IsWideNode, narrow, wide_below, wide_roots, wide_scene};
ghost use Rattle.ray_nearest.specs.declared.node.WalkNode.TheVariants.{Inner, TopInner, TopLeaf};
ghost use Rattle.ray_walk.specs.declared.level.Level.TheVariants.{World, Object};

use crate::aim::{Aim, sight_at};
use crate::children::{push_child, push_children};
use crate::descent::{Down, descend};
use crate::held::{Held, Looked, hold, looked_at};
use crate::leaf::open_leaf;
use crate::level::Level;
use crate::trees::Trees;
use crate::view::View;
use ray_geom::{ObjectRay, Ratio, Steps, object_ray};
use ray_nearest::{NoMemory, Turns, WalkNode};
use ray_wide::WideRef;
use std::sync::ledger::Ledger;

// The trees of the top structure, with the ray in the world.
fn world<'a, 'b>(view: &View<'a>, ray: &'b ObjectRay) -> Trees<'a, 'b>
    ensures tree { result.tree.now ≡ view.now.top.tree }
    ensures wide { result.wide.now ≡ view.now.top.wide }
    ensures ray { result.ray.now ≡ ray.now }
    ensures level { result.level ≡ World }
{
    Trees {
        level: Level::World,
        tree: view.top().tree(),
        wide: view.top().wide(),
        ray,
    }
}

// The trees of the structure of the instance of a number, with the ray in its object's space.
fn object<'a, 'b>(i: u32, looked: &Looked<'a>, ray: &'b ObjectRay) -> Trees<'a, 'b>
    ensures tree { result.tree.now ≡ looked.now.bottom.now.tree }
    ensures wide { result.wide.now ≡ looked.now.bottom.now.wide }
    ensures ray { result.ray.now ≡ ray.now }
    ensures level { result.level ≡ Object i }
{
    Trees {
        level: Level::Object(i),
        tree: looked.bottom.tree(),
        wide: looked.bottom.wide(),
        ray,
    }
}

// ---- the top structure

// Adds the turns of what is below the root of the top structure, if it has one.
pub(crate) fn begin<'a>(
    view: &View<'a>,
    aim: &mut Aim,
    held: &mut Option<Held<'a>>,
    turns: &mut Turns,
) -> Result<(), NoMemory>
    requires keeping { IsKeeping view.now aim.old held.old }
    ensures begun { let s = wide_scene view.now in
        OnOk result (AddsNodes None s s.roots turns.old turns.new) }
    ensures keeping { IsKeeping view.now aim.new held.new }
{
    view.known();
    match view.top().wide().root() {
        WideRef::Empty => Ok(()),
        WideRef::Leaf(leaf) => open_instances(view, held, leaf.node, None, turns),
        WideRef::Inner(w) => open_world(view, aim, w, None, turns),
    }
}

// Adds the turns of the children of a wide node of the top structure, or of that to which it leads.
fn open_world(
    view: &View<'_>,
    aim: &mut Aim,
    w: u32,
    limit: Option<Ratio>,
    turns: &mut Turns,
) -> Result<(), NoMemory>
    requires aim { IsInWorld view.now aim.old }
    requires node { w < length view.now.top.wide.nodes }
    ensures opened { let s = view.now in
        OnOk result (AddsNodes limit (wide_scene s) (wide_below s (TopInner w))
        turns.old turns.new) }
    ensures aim { IsInWorld view.now aim.new }
{
    view.known();
    let window = sight_at(aim, limit);
    let trees = world(view, &aim.ray);
    let mut eight = None;
    let Down { at, met } = descend(&trees, &window, &aim.slabs, w, limit, &mut eight);
    push_children(&trees, at, met, &eight, limit, &mut aim.recent, turns)
}

// ---- instances

// Adds the turn of the root of the structure of an instance, if it is to be looked at and has one.
// The instance isn't held, since most of those in a leaf aren't met.
fn push_root(
    view: &View<'_>,
    limit: Option<Ratio>,
    i: u32,
    turns: &mut Turns,
) -> Result<(), NoMemory>
    ensures { let s = view.now in
        OnOk result (AddsWide limit s (wide_roots s i) turns.old turns.new) }
{
    match looked_at(view, i) {
        Some(looked) => {
            let ray = object_ray(view.ray(), &looked.instance.matrix);
            push_root_of(view, i, &looked, &ray, limit, turns)
        }
        None => Ok(()),
    }
}

// The same of an instance that is looked at.
fn push_root_of(
    view: &View<'_>,
    i: u32,
    looked: &Looked<'_>,
    ray: &ObjectRay,
    limit: Option<Ratio>,
    turns: &mut Turns,
) -> Result<(), NoMemory>
    requires placed { placement_at view.now i ≡ Some (placement_value looked.now) }
    requires ray { ray.now ≡ object_of view.now.ray looked.now.instance.now.matrix }
    ensures { let s = view.now in
        OnOk result (AddsWide limit s (wide_roots s i) turns.old turns.new) }
{
    view.known();
    let trees = object(i, looked, ray);
    push_child(&trees, limit, trees.wide.root(), turns)
}

// Adds the turns of what is below the root of the structure of an instance, or that of the root, if
// it is to be looked at and has one.
fn pass_root<'a>(
    view: &View<'a>,
    held: &mut Option<Held<'a>>,
    limit: Option<Ratio>,
    i: u32,
    turns: &mut Turns,
) -> Result<(), NoMemory>
    requires held { IfSome held.old (IsHeld view.now) }
    ensures passed { let s = view.now in
        OnOk result (AddsNodes limit (wide_scene s) (wide_roots s i) turns.old turns.new) }
    ensures held { IfSome held.new (IsHeld view.now) }
{
    hold(view, held, i);
    match held {
        Some(h) => pass_root_of(view, i, &h.looked, &mut h.aim, limit, turns),
        None => Ok(()),
    }
}

// The same of an instance that is held.
fn pass_root_of(
    view: &View<'_>,
    i: u32,
    looked: &Looked<'_>,
    aim: &mut Aim,
    limit: Option<Ratio>,
    turns: &mut Turns,
) -> Result<(), NoMemory>
    requires looked { IsLookedAt view.now i looked.now aim.old }
    ensures passed { let s = view.now in
        OnOk result (AddsNodes limit (wide_scene s) (wide_roots s i) turns.old turns.new) }
    ensures looked { IsLookedAt view.now i looked.now aim.new }
{
    view.known();
    match looked.bottom.wide().root() {
        WideRef::Inner(w) => open_object(view, i, looked, aim, w, limit, turns),
        _ => push_root_of(view, i, looked, &aim.ray, limit, turns),
    }
}

// Adds the turns of the roots below a leaf of the top structure, or, where there is one, of what is
// below it.
fn open_instances<'a>(
    view: &View<'a>,
    held: &mut Option<Held<'a>>,
    n: u32,
    limit: Option<Ratio>,
    turns: &mut Turns,
) -> Result<(), NoMemory>
    requires held { IfSome held.old (IsHeld view.now) }
    requires node { n < length view.now.top.tree.nodes }
    ensures opened { let s = view.now in
        OnOk result (AddsNodes limit (wide_scene s) (wide_below s (TopLeaf n))
        turns.old turns.new) }
    ensures held { IfSome held.new (IsHeld view.now) }
{
    match view.top().items_of(n) {
        [i] => pass_root(view, held, limit, *i, turns),
        items => push_roots(view, limit, items, turns),
    }
}

// Adds the turns of the roots of the structures of instances.
fn push_roots(
    view: &View<'_>,
    limit: Option<Ratio>,
    items: &[u32],
    turns: &mut Turns,
) -> Result<(), NoMemory>
    ensures { let s = view.now in
        OnOk result (AddsWide limit s (flat_map (wide_roots s) items.now) turns.old turns.new) }
{
    for i in items {
        push_root(view, limit, *i, turns)?;
    }
    Ok(())
}

// Adds the turns of the children of a wide node of the structure of an instance that is held, or of
// that to which it leads.
fn open_object(
    view: &View<'_>,
    i: u32,
    looked: &Looked<'_>,
    aim: &mut Aim,
    w: u32,
    limit: Option<Ratio>,
    turns: &mut Turns,
) -> Result<(), NoMemory>
    requires looked { IsLookedAt view.now i looked.now aim.old }
    requires node { w < length looked.now.bottom.now.wide.nodes }
    ensures opened { let s = view.now in
        OnOk result (AddsNodes limit (wide_scene s) (wide_below s (Inner i w))
        turns.old turns.new) }
    ensures looked { IsLookedAt view.now i looked.now aim.new }
{
    view.known();
    let window = sight_at(aim, limit);
    let trees = object(i, looked, &aim.ray);
    let mut eight = None;
    let Down { at, met } = descend(&trees, &window, &aim.slabs, w, limit, &mut eight);
    push_children(&trees, at, met, &eight, limit, &mut aim.recent, turns)
}

// ---- all nodes

// Adds the turns of the nodes right below a node, and of what is found there. A primitive that is
// tested is a step.
pub(crate) fn open<'a, L: Ledger>(
    view: &View<'a>,
    aim: &mut Aim,
    held: &mut Option<Held<'a>>,
    node: WalkNode,
    limit: Option<Ratio>,
    turns: &mut Turns,
    steps: &mut Steps<L>,
) -> Result<(), NoMemory>
    requires node { IsWideNode view.now node }
    requires keeping { IsKeeping view.now aim.old held.old }
    ensures opened { OnOk result
        (IsOpened limit (wide_scene view.now) node turns.old turns.new) }
    ensures steps { OnOk result (steps.new ≡ steps.old + tests view.now (narrow view.now node)) }
    ensures rising { steps.old ≤ steps.new }
    ensures keeping { IsKeeping view.now aim.new held.new }
{
    match node {
        WalkNode::TopInner(w) => open_world(view, aim, w, limit, turns),
        WalkNode::TopLeaf(n) => open_instances(view, held, n, limit, turns),
        WalkNode::Inner { instance, node } => {
            hold(view, held, instance);
            match held {
                Some(h) => {
                    open_object(view, instance, &h.looked, &mut h.aim, node, limit, turns)
                }
                None => Ok(()),
            }
        }
        WalkNode::Leaf { instance, node } => {
            hold(view, held, instance);
            match held {
                Some(h) => {
                    let (looked, aim) = (&h.looked, &mut h.aim);
                    open_leaf(view, looked, aim, instance, node, limit, turns, steps)
                }
                None => Ok(()),
            }
        }
    }
}
