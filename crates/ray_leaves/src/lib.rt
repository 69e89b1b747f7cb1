//! The primitives at the leaves of a tree, each with its place and a copy of its points, in few
//! bytes where all of them are triangles.
//!
//! The layer above uses [`leaf_items_of`], which gives by `item_at` of `specs/LeafItems` the
//! primitives at places, and [`LeafList`], whose parts contracts see by `part_of` of `specs/Lists`
//! as lists of [`LeafItem`].
//!
//! It stands on `ray_geometries` (geometries), `ray_primitives` and `ray_geom`.
#![tactic(auto)]

mod leaf_item;
mod leaf_items;
mod leaf_list;
mod prim_place;
mod triangle_item;

pub use crate::leaf_item::{ItemPoints, LeafItem};
pub use crate::leaf_items::leaf_items_of;
pub use crate::leaf_list::{LeafList, LeafPart};
pub use crate::prim_place::PrimPlace;
pub use crate::triangle_item::TriangleItem;
pub use std::alloc::AllocError as NoMemory;
