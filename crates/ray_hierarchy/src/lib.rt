//! The box trees of a structure: a binary tree over the boxes of its items, and the wide tree over
//! its leaves by which rays walk.
//!
//! [`Hierarchy`] is the one type. Contracts see it as both trees. The layers above use these:
//! - [`Hierarchy::build`], which says by `IsBuilt` of `specs/Hierarchies` what the flags of a build
//!   come to: a tree by keys where fast builds are preferred, else a tree by halves;
//! - [`Hierarchy::of_tree`], the trees of a binary tree that is given;
//! - [`Hierarchy::updated`], which says by `IsUpdated` what an update comes to: the old tree refit,
//!   where the items have its activity, and else a tree that is built anew;
//! - [`Hierarchy::tree`], [`Hierarchy::wide`] and [`Hierarchy::order`], what it is.
//!
//! Want of memory is the only error.
//!
//! It stands on `ray_tree` and `ray_morton` (the builders), on `ray_climb` (updates), on
//! `ray_wide`, and on `ray_flags`.
#![tactic(auto)]

mod activity;
mod hierarchy;

pub use crate::hierarchy::Hierarchy;
pub use std::alloc::AllocError as NoMemory;
