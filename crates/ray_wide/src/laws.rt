ghost use Rattle.std.specs.Prelude.{◌<◌, ◌↔◌, IsTrue};
ghost use Rattle.ray_tree.specs.Trees.{TreeOver, active_of};
ghost use Rattle.ray_wide.specs.Wides.{WideOver, is_there};
ghost use Rattle.ray_wide.specs.Ways.{AreReached, AreInLanes, AreInParents};

use crate::wide::Wide;
use ray_geom::Box3;
use ray_tree::Tree;

/// The ways from the root of a wide tree lead to the leaves of the tree, from the left, and one
/// way leads to each leaf.
pub fn way_law(_wide: &Wide, tree: &Tree)
    ensures { WideOver _wide.now tree.now → AreReached _wide.now tree.now }
{
    tree.shape();
}

/// The box of each active item is in the lane of each child from which a way leads to its leaf.
pub fn lane_law(_wide: &Wide, _tree: &Tree, _items: &[Option<Box3>])
    ensures { TreeOver _tree.now _items.now → WideOver _wide.now _tree.now
        → AreInLanes _wide.now _tree.now _items.now }
{}

/// The lanes of a wide node are in the box of the subtree for which it stands, and in the lane of
/// its parent that has that box.
pub fn nesting_law(_wide: &Wide, _tree: &Tree, _items: &[Option<Box3>])
    ensures { TreeOver _tree.now _items.now → WideOver _wide.now _tree.now
        → AreInParents _wide.now _tree.now }
{}

/// A wide tree over items has a root exactly where an item is active.
pub fn root_law(_wide: &Wide, _tree: &Tree, _items: &[Option<Box3>])
    ensures { TreeOver _tree.now _items.now → WideOver _wide.now _tree.now
        → IsTrue (is_there _wide.now.root) ↔ (0 < active_of _items.now) }
{}
