ghost use Rattle.std.specs.Prelude.{◌≡◌};
ghost use Rattle.ray_geometries.specs.Tallies.{one_if_some};

use ray_geom::Box3;

// What is counted of active primitives in one pass: their bounds, and how many they are.
#[derive(Clone, Copy)]
pub(crate) struct Tally {
    // The least box of them, and of what the pass began with. None exactly where there is none.
    pub(crate) bounds: Option<Box3>,
    // How many they are.
    pub(crate) active: usize,
}

// 1 for the box of an active primitive, 0 for an inactive one.
pub(crate) fn one_if_some(more: &Option<Box3>) -> usize
    ensures { result ≡ one_if_some more.now }
{
    match more {
        Some(_) => 1,
        None => 0,
    }
}
