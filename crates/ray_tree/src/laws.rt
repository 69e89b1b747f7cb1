ghost use Rattle.std.specs.Prelude.{◌<◌, ◌↔◌, length};
ghost use Rattle.ray_tree.specs.Trees.{TreeOver, active_of};
ghost use Rattle.ray_tree.specs.Nesting.{AreNested, AreAround, AreApart, IsLow};

use crate::tree::Tree;
use ray_geom::Box3;

/// In a tree over items the box of each node is in that of its parent, and the box of each active
/// item in that of each node above it.
pub fn nesting_law(_tree: &Tree, _items: &[Option<Box3>])
    ensures nodes { TreeOver _tree.now _items.now → AreNested _tree.now }
    ensures items { TreeOver _tree.now _items.now → AreAround _tree.now _items.now }
{}

/// In a tree over items each active item stands in one leaf, and nothing else does.
pub fn leaf_law(_tree: &Tree, _items: &[Option<Box3>])
    ensures { TreeOver _tree.now _items.now → AreApart _tree.now _items.now }
{}

/// A way down a tree has at most as many nodes as there are.
pub fn level_law(tree: &Tree)
    ensures { IsLow tree.now }
{
    tree.shape();
}

/// A tree over items has a root exactly where an item is active.
pub fn root_law(_tree: &Tree, _items: &[Option<Box3>])
    ensures { TreeOver _tree.now _items.now
        → (0 < length _tree.now.nodes) ↔ (0 < active_of _items.now) }
{}
