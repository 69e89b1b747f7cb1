//! By which geometry or count a command breaks the rule on what structures are built of: a top of
//! one geometry, of instances, and a bottom of triangles or of boxes.
//!
//! The layer above uses [`misbuilt_of`], whose clause says by `IsMisbuiltAt` of `specs/Builds` that
//! what it tells is so in the recording: of the info at the refusal's place, where the command
//! stands. It tells something for each refusal by V8, and for no other.
//!
//! It stands on ray_causes (infos by number), ray_status (what stands where) and ray_rules (the
//! definitions).
#![tactic(auto)]

mod bottoms;
mod finding;
mod listing;
mod misbuilt;
mod numbers;
mod tops;

pub use crate::finding::misbuilt_of;
pub use crate::misbuilt::{BottomFlaw, GeometryKind, Misbuilt, TopFlaw, Two};
pub use std::alloc::AllocError as NoMemory;
