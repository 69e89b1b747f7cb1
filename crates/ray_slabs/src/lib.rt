//! Conservative bounds of the distances at which a ray meets boxes, in fixed point: the slab test
//! in whole numbers of 32 bits, before any box is tested exactly.
//!
//! [`Slabs::new`] makes, once for a ray in an object's space and the root's box, a multiplier and
//! an offset for each axis. [`Slabs::test`] then takes a product and an addition for each plane, and
//! [`Slabs::test8`] does so for eight boxes at once, by vectors (`AreBoundsAt` of `specs/Eights`). A
//! key counts distances from where the root's box is entered, in a power of two that is fine enough
//! for the ray. The layer above uses the clause `bounds` of [`Slabs::new`], `AreBounds` of
//! `specs/Bounds`: each box in the root's box that is met at a distance up to the limit is kept,
//! its key is at most that of the distance, and a box that is told for sure is met, at 3 keys more.
//! Where an axis has no slope that fits, as where the ray stands still on it, a window of whole
//! numbers takes its place.
//!
//! It stands on `ray_window`, `ray_lanes`, `ray_prune` and `ray_geom`. No call takes memory.
#![tactic(auto)]

mod axis;
mod axis_rows;
mod bound;
mod crossing;
mod eights;
mod keys;
mod planes;
mod range;
mod rounding;
mod rows;
mod shift;
mod side;
mod slab_test;
mod slabs;
mod slabs_of;
mod slope;

pub use crate::bound::Bound;
pub use crate::eights::Bounds8;
pub use crate::planes::{Planes, stored_plane};
pub use crate::slabs::Slabs;
