ghost use Rattle.std.specs.Prelude.{◌≤◌, ◌^◌, length};
ghost use Rattle.ray_tree.specs.Trees.{TreeOver};
ghost use Rattle.ray_stated.specs.Stored.{IsPreorder};
ghost use Rattle.ray_stated.specs.Carried.{CarriedAsSaid, CarriedIsOne, CarriedIsLow, StatedIsCarried, IsReadBack};

use crate::stored::StoredNode;
use ray_geom::Box3;
use ray_tree::Tree;

/// What stored nodes and an order carry is one tree, which `carried` gives, and none exactly where
/// it gives none; it has at most 96 levels.
pub fn carried_law(_nodes: &[StoredNode], _order: &[u32], _items: &[Option<Box3>])
    ensures said { CarriedAsSaid _nodes.now _order.now _items.now }
    ensures one { CarriedIsOne _nodes.now _order.now _items.now }
    ensures low { CarriedIsLow _nodes.now _order.now _items.now }
{}

/// The stated tree is carried by its spelling.
pub fn stated_law(_items: &[Option<Box3>])
    requires { length _items.now ≤ 2 ^ 20 }
    ensures { StatedIsCarried _items.now }
{}

/// A tree over items whose nodes are in preorder, as a stated tree or one that was read, is read
/// from what `store` writes of it as the same tree.
pub fn stored_law(_tree: &Tree, _items: &[Option<Box3>])
    ensures { TreeOver _tree.now _items.now
        → IsPreorder _tree.now.nodes (length _tree.now.order) → IsReadBack _tree.now _items.now }
{}
