//! The way down through wide nodes of which a ray meets one child alone: such nodes are passed by.
ghost use Rattle.std.specs.Prelude.{◌≡◌, ◌<◌, IfNone, IfSome, IsSome, None, length};
ghost use Rattle.ray_slabs.specs.Bounds.{AreBounds};
ghost use Rattle.ray_wide.specs.Wides.{children_in, lanes_in};
ghost use Rattle.ray_window.specs.Windows.{window_of};
ghost use Rattle.ray_walk.specs.Aims.{AreTrees, IsAlone, IsDown, LeavesOut};
ghost use Rattle.ray_walk.specs.Bounding.{IsEight, whole};

use crate::bounding::{Eight, told_by};
use crate::set_bits::next_bit;
use crate::trees::Trees;
use ray_geom::Ratio;
use ray_lanes::{Window, overlap8};
use ray_slabs::Slabs;
use ray_wide::{Child, WideRef};

/// Where a way down ends.
#[derive(Clone, Copy)]
pub(crate) struct Down {
    /// The number of the wide node.
    pub(crate) at: u32,
    /// A bit for each of its children that may be met.
    pub(crate) met: u8,
}

// What is left of a wide node.
#[derive(Clone, Copy)]
struct Left {
    // A bit for each of its children that may be met.
    met: u8,
    // The child that is met, where no other is and it is a wide node.
    alone: Option<u32>,
}

/// The wide node to which one leads: as long as one child alone may be met within the limit, and
/// that is a wide node, it is the child; the way ends, too, at a node whose middle child is a leaf.
/// No turn is taken for those that are passed by, and no box is tested exactly. It goes by the
/// window, or where there is none by slabs, and what these tell of the last node is put into
/// `eight`.
pub(crate) fn descend(
    trees: &Trees<'_, '_>,
    window: &Option<Window>,
    slabs: &Option<Slabs>,
    w: u32,
    limit: Option<Ratio>,
    eight: &mut Option<Eight>,
) -> Down
    requires trees { AreTrees trees.now.tree.now trees.now.wide.now }
    requires window { IfSome window.now (λ x. x ≡ window_of trees.now.ray.now limit) }
    requires sight { IfNone window.now (IsSome slabs.now) }
    requires node { w < length trees.now.wide.now.nodes }
    requires slabs { IfSome slabs.now (AreBounds trees.now.ray.now whole None) }
    requires none { eight.old ≡ None }
    ensures down { IsDown limit trees.now w result.at result.met }
    ensures eight { IfSome eight.new
        (IsEight trees.now.ray.now (lanes_in trees.now.wide.now.nodes result.at)) }
{
    match window {
        Some(window) => descend_seen(trees, window, w, limit),
        None => descend_by(trees, slabs, w, limit, eight),
    }
}

// The same by slabs.
fn descend_by(
    trees: &Trees<'_, '_>,
    slabs: &Option<Slabs>,
    w: u32,
    limit: Option<Ratio>,
    eight: &mut Option<Eight>,
) -> Down
    requires trees { AreTrees trees.now.tree.now trees.now.wide.now }
    requires sight { IsSome slabs.now }
    requires node { w < length trees.now.wide.now.nodes }
    requires slabs { IfSome slabs.now (AreBounds trees.now.ray.now whole None) }
    ensures down { IsDown limit trees.now w result.at result.met }
    ensures eight { IfSome eight.new
        (IsEight trees.now.ray.now (lanes_in trees.now.wide.now.nodes result.at)) }
{
    match slabs {
        Some(slabs) => descend_told(trees, slabs, w, limit, eight),
        None => Down { at: w, met: 255 },
    }
}

// The way down by the window.
fn descend_seen(trees: &Trees<'_, '_>, window: &Window, w: u32, _limit: Option<Ratio>) -> Down
    requires trees { AreTrees trees.now.tree.now trees.now.wide.now }
    requires window { window.now ≡ window_of trees.now.ray.now _limit }
    requires node { w < length trees.now.wide.now.nodes }
    ensures { IsDown _limit trees.now w result.at result.met }
{
    let _det = trees.ray.det();
    let mut at = w;
    let mut seen = left_seen(trees, window, at, _limit);
    while let Some(below) = seen.alone {
        at = below;
        seen = left_seen(trees, window, at, _limit);
    }
    Down { at, met: seen.met }
}

// What is left of a wide node, by the window. It is put in place, so that the window stays in
// registers on the way down.
#[inline(always)]
fn left_seen(trees: &Trees<'_, '_>, window: &Window, w: u32, _limit: Option<Ratio>) -> Left
    requires trees { AreTrees trees.now.tree.now trees.now.wide.now }
    requires window { window.now ≡ window_of trees.now.ray.now _limit }
    requires node { w < length trees.now.wide.now.nodes }
    ensures out { LeavesOut _limit trees.now w result.met }
    ensures alone { IfSome result.alone
        (IsAlone (children_in trees.now.wide.now.nodes w) result.met) }
{
    let _det = trees.ray.det();
    let met = overlap8(trees.wide.lanes(w), window);
    Left {
        met,
        alone: only_child(trees.wide.children(w), met),
    }
}

// The way down by slabs.
fn descend_told(
    trees: &Trees<'_, '_>,
    slabs: &Slabs,
    w: u32,
    _limit: Option<Ratio>,
    eight: &mut Option<Eight>,
) -> Down
    requires trees { AreTrees trees.now.tree.now trees.now.wide.now }
    requires node { w < length trees.now.wide.now.nodes }
    requires slabs { AreBounds trees.now.ray.now whole None slabs.now }
    ensures down { IsDown _limit trees.now w result.at result.met }
    ensures eight { IfSome eight.new
        (IsEight trees.now.ray.now (lanes_in trees.now.wide.now.nodes result.at)) }
{
    let mut at = w;
    let mut seen = left_told(trees, slabs, at, _limit, eight);
    while let Some(below) = seen.alone {
        at = below;
        seen = left_told(trees, slabs, at, _limit, eight);
    }
    Down { at, met: seen.met }
}

// What is left of a wide node, by slabs.
fn left_told(
    trees: &Trees<'_, '_>,
    slabs: &Slabs,
    w: u32,
    _limit: Option<Ratio>,
    eight: &mut Option<Eight>,
) -> Left
    requires trees { AreTrees trees.now.tree.now trees.now.wide.now }
    requires node { w < length trees.now.wide.now.nodes }
    requires slabs { AreBounds trees.now.ray.now whole None slabs.now }
    ensures out { LeavesOut _limit trees.now w result.met }
    ensures eight { IfSome eight.new
        (IsEight trees.now.ray.now (lanes_in trees.now.wide.now.nodes w)) }
    ensures alone { IfSome result.alone
        (IsAlone (children_in trees.now.wide.now.nodes w) result.met) }
{
    let met = told_by(slabs, trees.wide.lanes(w), eight);
    Left {
        met,
        alone: only_child(trees.wide.children(w), met),
    }
}

// The child whose bit is set, where no other is and it is a wide node. None is looked for where the
// child in the middle is a leaf, since then nearly all of them are. That one is read beside the
// lanes, so that the line of memory in which most children stand comes beside theirs.
fn only_child(children: &[Child; 8], met: u8) -> Option<u32>
    ensures { IfSome result (IsAlone children.now met) }
{
    if let WideRef::Leaf(_) = children[4].get() {
        return None;
    }
    let k = next_bit(met, 0);
    if k == 8 || next_bit(met, k + 1) < 8 {
        return None;
    }
    match children[k as usize].get() {
        WideRef::Inner(below) => Some(below),
        _ => None,
    }
}
