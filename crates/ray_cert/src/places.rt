//! The place of an item of a structure, from how many primitives each geometry has.
ghost use Rattle.std.specs.Prelude.{◌≡◌};
ghost use Rattle.ray_bottom.specs.Trees.{place_at};

use ray_bottom::{Bottom, PrimPlace};

// The place of an item. A number that is none's has the first place.
pub(crate) fn place_of_item(bottom: &Bottom, item: u32) -> PrimPlace
    ensures { result ≡ place_at bottom.now.geometries item }
{
    let mut left = item;
    for geometry in 0..bottom.geometries() {
        let count = bottom.count(geometry);
        if left < count {
            return PrimPlace {
                geometry,
                primitive: left,
            };
        }
        left -= count;
    }
    PrimPlace {
        geometry: 0,
        primitive: 0,
    }
}
