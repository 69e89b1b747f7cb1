//! The window of a ray in an object's space: a box of whole numbers around where the ray is from
//! tmin up to a limit, against which eight boxes are tested at a time before any of them is tested
//! exactly.
//!
//! The layer above, the walk of `ray_walk`, uses [`window_of`], whose clause `value` says it number
//! by number, by `specs/Windows`, and in its proofs the lemmas of `proofs/Windows`. By
//! [`window_law`] a box that the window doesn't meet has no distance up to the limit that is
//! inside, and lanes without a box are never met.
//!
//! It stands on `ray_lanes`, `ray_prune` and `ray_geom`. No call takes memory.
#![tactic(auto)]

mod line;
mod quotients;
mod side;
mod window;

pub use crate::window::{window_law, window_of};
