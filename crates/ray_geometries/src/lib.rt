//! The contents of bottom structures: their geometries with the primitives, within the limits, and
//! how they are stored.
//!
//! The layer above, ray_bottom, uses these:
//! - [`Contents`], which contracts see as the flags of a build with its geometries
//!   (`specs/Contents`), and which knows their bounds and how many primitives there are without
//!   looking at each;
//! - [`Geometry`] and [`Shapes`], a geometry and its primitives;
//! - [`Contents::payload`], the bytes that they are stored as (`specs/Storing`), and [`Stored`], a
//!   geometry as it is stored; by [`stored_back`] and [`stored_again`] each is the other read back.
//!
//! Want of memory is the only error.
//!
//! It stands on `ray_primitives` (primitives, and how each is kept and stored), `ray_contents`,
//! `ray_geom`, `ray_bytes`, `ray_flags`, and `byteorder`.
#![tactic(auto)]

mod contents;
mod geometry;
mod payload;
mod shapes;
mod stored;
mod stored_law;
mod tally;

pub use crate::contents::Contents;
pub use crate::geometry::Geometry;
pub use crate::shapes::Shapes;
pub use crate::stored::Stored;
pub use crate::stored_law::{stored_again, stored_back};
pub use std::alloc::AllocError as NoMemory;
