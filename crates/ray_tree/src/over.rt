//! Whether nodes, boxes and an order are a tree over items.
ghost use Rattle.std.specs.Prelude.{◌↔◌, IsTrue};
ghost use Rattle.ray_tree.specs.Trees.{IsShape, TreeOver, tree_value};

use crate::activity::{count_active, has_items};
use crate::least::are_least;
use crate::node::Node;
use ray_geom::Box3;

/// Whether nodes, boxes and an order, which have the shape of a tree, are one over these items. It takes no
/// memory. (Own.)
pub fn is_over(nodes: &[Node], boxes: &[Box3], order: &[u32], items: &[Option<Box3>]) -> bool
    requires { IsShape (tree_value nodes.now boxes.now order.now) }
    ensures { IsTrue result ↔ TreeOver (tree_value nodes.now boxes.now order.now) items.now }
{
    if !has_items(order, items, count_active(items)) {
        return false;
    }
    are_least(items, order, boxes, nodes)
}
