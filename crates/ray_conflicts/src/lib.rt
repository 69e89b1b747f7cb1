//! Which parts of one command conflict with one another.
//!
//! The layer above uses [`conflict_of`], whose clause says by `IsConflictAt` of `specs/Conflicts`
//! that what it tells is so in the recording: these two parts of the command that was refused
//! conflict in this way.
//!
//! It stands on ray_causes (members), ray_status (ranges) and ray_rules (the definitions).
#![tactic(auto)]

mod conflict;
mod finding;
mod infos;
mod listing;
mod regions;

pub use crate::conflict::{Conflict, Two, Way};
pub use crate::finding::conflict_of;
pub use std::alloc::AllocError as NoMemory;
