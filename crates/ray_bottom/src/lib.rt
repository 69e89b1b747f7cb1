//! Bottom structures: how they are built of geometry, updated, copied and compacted, what they
//! hold, and what a ray meets of them.
//!
//! The layers above use these:
//! - [`Builder`], whose calls say by `with_triangles` and `with_boxes` of `specs/Builders` which
//!   contents it holds, or which data rule a geometry breaks first, and which ends in a structure
//!   with a tree of its own or, by `finish_with`, with one that is given;
//! - [`Bottom`], which contracts see by `specs/Trees` as its contents (`specs/Contents` of
//!   `ray_geometries`) with its box tree, with its accessors;
//! - [`Bottoms`], the structures by their ids, with room that is made first.
//!
//! It stands on `ray_geometries` (the contents, and how they are stored), `ray_primitives` (how
//! geometry is read and kept), `ray_leaves` (the primitives at leaves), `ray_contents`, `ray_geom`,
//! `ray_prune` (spans), `ray_hierarchy` (box trees), `ray_bytes` and `ray_flags`.
#![tactic(auto)]

mod bottom;
mod bottoms;
mod builder;
mod items;
mod meet;
mod raw_meet;
mod testing;

pub use crate::bottom::Bottom;
pub use crate::bottoms::Bottoms;
pub use crate::builder::Builder;
pub use crate::meet::Meet;
pub use crate::raw_meet::RawMeet;
pub use ray_geometries::{Stored, stored_again, stored_back};
pub use ray_leaves::{ItemPoints, LeafItem, LeafPart, PrimPlace, TriangleItem};
pub use ray_primitives::{BoxInfo, BuildFault, TriangleInfo};
pub use std::alloc::AllocError as NoMemory;
