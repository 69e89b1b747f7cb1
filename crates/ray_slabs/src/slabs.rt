ghost use Rattle.ray_slabs.specs.Axes.{AreSafe};

use crate::axis::Axis;

/// What is made once for a ray and the root's box, against which boxes in the root's box are
/// tested. (Own.)
#[derive(Clone, Copy)]
pub struct Slabs {
    pub(crate) x: Axis,
    pub(crate) y: Axis,
    pub(crate) z: Axis,
    // The key at which the root's box is entered, rounded down.
    pub(crate) base: u64,
    // The greatest key, counted from the base.
    pub(crate) last: i32,
    // Keys are in 2^(shift - 38).
    pub(crate) shift: u32,
    // Whether the ray stands still on each axis that is flat.
    pub(crate) exact: bool,
    pub(crate) ghost fits: { AreSafe x y z last },
}
