ghost use Rattle.std.specs.Prelude.{◌≡◌};
ghost use Rattle.ray_geom.specs.LeastBoxes.{joined_of};
ghost use Rattle.ray_contents.specs.Bounds.{extended_of};

use ray_geom::Box3;

/// The least box of what there is so far and of one thing more, which has no box where it is
/// inactive. It is one step of the fold `box_of_boxes` of `ray_geom` over the active ones. (Own.)
pub fn extended(so_far: Option<Box3>, more: Option<Box3>) -> Option<Box3>
    ensures { result ≡ extended_of so_far more }
{
    match more {
        Some(b) => joined(so_far, b),
        None => so_far,
    }
}

// The union of what there is so far and one box more.
fn joined(so_far: Option<Box3>, more: Box3) -> Option<Box3>
    ensures { result ≡ joined_of so_far more }
{
    match so_far {
        None => Some(more),
        Some(b) => Some(b.union(&more)),
    }
}
