//! In what an update differs from its source, of what it may not change.
//!
//! The layer above uses [`update_of`], whose clause says by `IsUpdateAt` of `specs/Changes` that
//! what it tells is so in the recording: the info that was refused and the one by which its source
//! was built differ in this.
//!
//! It stands on ray_causes (members), ray_status (what stands where) and ray_rules (the
//! definitions).
#![tactic(auto)]

mod change;
mod comparing;
mod finding;
mod numbers;
mod updating;

pub use crate::change::{Change, Matter, Update};
pub use crate::finding::update_of;
pub use std::alloc::AllocError as NoMemory;
