ghost use Rattle.std.specs.Prelude.{ℕ};
ghost use Rattle.ray_lanes.specs.Overlap.{Overlaps};
ghost use Rattle.ray_lanes.specs.Padding.{IsPadded, IsNear};

use crate::lanes::{Lanes8, Window};

/// Where a lane without a box begins, on each axis. (Own.)
pub const PADDED_LO: i32 = i32::MAX;

/// Where a lane without a box ends, on each axis. (Own.)
pub const PADDED_HI: i32 = i32::MIN;

/// A lane without a box overlaps no window whose numbers lie from -2^30 to 2^30.
pub fn padding_law(_lanes: &Lanes8, _window: &Window)
    ensures { (box : ℕ) → IsPadded _lanes.now box → IsNear _window.now
        → ¬ (Overlaps _lanes.now _window.now box) }
{}
