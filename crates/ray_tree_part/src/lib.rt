//! The tree part of a serialized structure: a box tree as bytes, and the tree that bytes spell.
//!
//! `ray_serial` uses these:
//! - [`append_tree`], the bytes of a tree (`tree_bytes` of `specs/TreeParts`), which are a part
//!   and are read back as what is stored of the tree;
//! - [`is_part`], whether bytes have the size that their counts say, and [`tree_in`], the tree over
//!   items that such bytes spell, or NotTree exactly where they spell none, however hostile the
//!   numbers in them;
//! - [`stated_size`], how many bytes there are of the stated tree, without memory.
//!
//! It stands on `ray_stated` (stated trees, and trees as nodes are stored), `ray_tree`,
//! `ray_primitives` (boxes as they are stored), `ray_contents`, `ray_geom`, `ray_bytes` and
//! `byteorder`.
#![tactic(auto)]

mod fields;
mod reading;
mod size;
mod writing;

pub use crate::reading::{is_part, tree_in};
pub use crate::size::stated_size;
pub use crate::writing::append_tree;
pub use ray_stated::TreeFault;
pub use std::alloc::AllocError as NoMemory;
