//! Top structures: how they are built of instances, updated and copied, and what they hold.
//!
//! The layers above use [`Top`], which contracts see by `specs/Trees` as its contents
//! (`specs/Contents`), beside them the structures that were in use with the bounds that each had,
//! and its box tree. Its calls say by
//! `instances_read` of `specs/InstanceReading` which instances the records of a buffer hold, or
//! which of the data rules X5 to X9 is broken first.
//!
//! It stands on `ray_primitives` (what a reading gives), `ray_contents` (the first fault, else
//! all), `ray_hierarchy` (box trees), `ray_prune` (boxes in the world), `ray_geom`, `ray_bytes` and
//! `ray_flags`.
#![tactic(auto)]

mod instance;
mod items;
mod laws;
mod lists;
mod placed;
mod reading;
mod top;
mod used;
mod used_index;

pub use crate::instance::Instance;
pub use crate::laws::reading_law;
pub use crate::top::Top;
pub use crate::used::Used;
pub use ray_primitives::BuildFault;
pub use std::alloc::AllocError as NoMemory;
