//! By which number a command breaks a static rule on sizes and places of which ray_causes and
//! ray_grounds tell nothing: a size that is 0 or too large, a number that is no multiple, and where
//! a structure would stand.
//!
//! The layer above uses [`limit_of`], whose clause says by `IsLimitAt` of `specs/Limits` that what
//! it tells is so in the recording: the member of the command that was refused has this number
//! (`specs/Amounts`), and the comparison fails where the command stands. A member of the command is
//! a `Member` of ray_causes, and so is its text.
//!
//! It stands on ray_causes (members), ray_status (what stands where) and ray_rules (the
//! definitions). The members of a command are gone over in one order (`listing`), and each is
//! tested (`testing`).
#![tactic(auto)]

mod amounts;
mod bounds;
mod finding;
mod limit;
mod listing;
mod multiples;
mod naming;
mod sizes;
mod standing;
mod testing;

pub use crate::finding::limit_of;
pub use crate::limit::{Bound, Limit, Sizes};
pub use std::alloc::AllocError as NoMemory;
