//! The least boxes of all nodes of a tree whose children stand after their parents.
ghost use Rattle.std.specs.Prelude.{◌≡◌, IfOk, length};
ghost use Rattle.std.specs.List.{All};
ghost use Rattle.ray_tree.specs.Local.{IsActive, AreLocal, AreFit};
ghost use Rattle.ray_tree.specs.Plans.{AreRising};

use crate::least::box_by;
use crate::node::Node;
use ray_geom::{Box3, Vec3};
use std::alloc::{AllocError as NoMemory, Global};

// The boxes of all nodes.
pub(crate) fn boxes_over(
    alloc: Global,
    items: &[Option<Box3>],
    order: &[u32],
    nodes: &[Node],
) -> Result<Vec<Box3>, NoMemory>
    requires active { All (IsActive items.now) order.now }
    requires fit { AreFit (length order.now) nodes.now }
    requires rising { AreRising nodes.now }
    ensures local { IfOk result (λ v. AreLocal items.now order.now v.items nodes.now) }
    ensures boxed { IfOk result (λ v. length v.items ≡ length nodes.now) }
{
    let mut boxes = vec![in alloc; blank(); nodes.len()]?;
    fill(items, order, boxes.as_mut_slice(), nodes);
    Ok(boxes)
}

// A box to begin with.
fn blank() -> Box3 {
    Box3::of_point(Vec3 { x: 0, y: 0, z: 0 })
}

// Sets the box of each node, from the last to the first.
fn fill(items: &[Option<Box3>], order: &[u32], boxes: &mut [Box3], nodes: &[Node])
    requires active { All (IsActive items.now) order.now }
    requires boxed { length boxes.old ≡ length nodes.now }
    requires fit { AreFit (length order.now) nodes.now }
    requires rising { AreRising nodes.now }
    ensures { AreLocal items.now order.now boxes.new nodes.now }
{
    let mut i = nodes.len();
    while i > 0 {
        i -= 1;
        let made = box_by(items, order, boxes, nodes[i]);
        boxes[i] = made;
    }
}
