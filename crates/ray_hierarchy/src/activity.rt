//! Whether items have the activity of a tree's.
ghost use Rattle.std.specs.Prelude.{◌≡◌, ◌↔◌, IsTrue};
ghost use Rattle.ray_tree.specs.NodeBoxes.{HasActivity};
ghost use Rattle.ray_tree.specs.Trees.{active_of};

use ray_geom::Box3;
use ray_tree::{Tree, has_items};

// Whether items, of which so many are active, have the activity of a tree's.
pub(crate) fn has_activity(tree: &Tree, items: &[Option<Box3>], active: usize) -> bool
    requires { active ≡ active_of items.now }
    ensures { IsTrue result ↔ HasActivity tree.now items.now }
{
    tree.shape();
    has_items(tree.order(), items, active)
}
