//! The primitives of bottom structures: how triangles and boxes are kept, and how a geometry of
//! them is read from a buffer.
//!
//! The layer above uses [`read_triangles`] and [`read_boxes`], whose clauses say by `triangles_read`
//! and `boxes_read` of `specs/TriangleReading` and `specs/BoxReading` which primitives the views
//! hold, or which of the data rules X1 to X4, X9 and X10 is broken first; and [`KeptTriangle`] and
//! [`KeptBox`], which contracts see as `TriangleValue` and as a box or none.
//!
//! A triangle takes 48 bytes and a box 24. Reading goes by the views alone: nothing is copied but
//! the primitives.
//!
//! It stands on `ray_contents` (the first fault, else all), `ray_geom` and `ray_bytes`.
#![tactic(auto)]

mod box_info;
mod boxes;
mod build_fault;
mod corner;
mod corners;
mod index_values;
mod kept_box;
mod kept_triangle;
mod stored_boxes;
mod stored_laws;
mod stored_points;
mod stored_triangles;
mod triangle_info;
mod triangle_source;
mod triangles;

pub use crate::box_info::BoxInfo;
pub use crate::boxes::read_boxes;
pub use crate::build_fault::BuildFault;
pub use crate::index_values::IndexValues;
pub use crate::kept_box::KeptBox;
pub use crate::kept_triangle::KeptTriangle;
pub use crate::stored_boxes::{are_boxes, boxes_of_bytes};
pub use crate::stored_laws::{stored_boxes_law, stored_triangles_law};
pub use crate::stored_triangles::{are_triangles, triangles_of_bytes};
pub use crate::triangle_info::TriangleInfo;
pub use crate::triangles::read_triangles;
pub use std::alloc::AllocError as NoMemory;
