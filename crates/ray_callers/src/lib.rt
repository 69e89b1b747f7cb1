//! Callers of the crates that other programs call: a few lines each, with a contract of its own.
//! The pages `CALLING.md` of these crates quote them, and nothing stands on this crate.
//!
//! [`distance`] calls ray_geom, [`verdict`] ray_check, and [`closest`] ray_walk.
#![tactic(auto)]

mod checking;
mod geometry;
mod tracing;

pub use crate::checking::verdict;
pub use crate::geometry::distance;
pub use crate::tracing::closest;
