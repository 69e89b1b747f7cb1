//! On which ground a command is refused by a static rule of which ray_causes tells nothing: what
//! was compared of the command, of what stands where it does and of what came before it.
//!
//! The layer above uses [`ground_of`], whose clause says by `IsGroundAt` of `specs/Grounds` that
//! what it tells is so in the recording: a [`Fact`] of the command and of what stands where it does
//! (`specs/Facts`), an [`Origin`] of what it reads (`specs/Origins`), or the command that submits
//! last before it (`specs/Submits`). A member of the command is a `Member` of ray_causes, and so is
//! its text. [`unfinished_of`] tells of the end, by `specs/Ends`.
//!
//! It stands on ray_causes (members), ray_status (what stands where) and ray_rules (the
//! definitions). The members of a command are gone over in one order (`listing`), and each is
//! tested (`testing`).
#![tactic(auto)]

mod asked;
mod ends;
mod entries;
mod fact;
mod finding;
mod grounds;
mod held;
mod lacking;
mod listing;
mod origin;
mod origins;
mod phases;
mod submits;
mod testing;
mod unbuilt;

pub use crate::ends::unfinished_of;
pub use crate::fact::Fact;
pub use crate::finding::ground_of;
pub use crate::grounds::Ground;
pub use crate::origin::{Entry, Lack, Origin, Stale};
pub use std::alloc::AllocError as NoMemory;
