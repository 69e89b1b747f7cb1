//! That the boxes of items are within the limits.
ghost use Rattle.std.specs.Prelude.{◌≡◌, Some};
ghost use Rattle.ray_geom.specs.Boxes.{BoxValue, IsBox};
ghost use Rattle.ray_tree.specs.NodeBoxes.{AreBoxes};

use ray_geom::Box3;

// Says that the box of an item is within the limits; it does nothing.
fn check_box(item: &Option<Box3>)
    ensures { (b : BoxValue) → item.now ≡ Some b → IsBox b }
{
    if let Some(bounds) = item {
        let _lo = bounds.lo();
    }
}

// Says that the boxes of items are; it does nothing.
pub(crate) fn check_boxes(items: &[Option<Box3>])
    ensures { AreBoxes items.now }
{
    for i in 0..items.len() {
        check_box(&items[i]);
    }
}
