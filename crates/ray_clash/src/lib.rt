//! Why two commands are at odds: with which accesses, by what they reach both, what is missing
//! between them, and a barrier that mends it.
//!
//! The layer above uses [`clash_of`], whose clause says by `IsClashAt` of `specs/Clashes` that what
//! it tells of a refusal by V25, V26, V27 or V32 is so in the recording, and [`barrier_law`]: once
//! a barrier with the stages and the accesses of a [`Clash`] is put in between the two commands,
//! the later one is ordered and covered there (`specs/Barriers`). [`clash_text`] tells a clash in
//! words, with that barrier as a recording writes it (`specs/Telling`).
//!
//! It stands on ray_access (what commands read and write), ray_status and ray_causes (what stands
//! where), ray_sync (what a barrier's sets hold) and ray_rules (the definitions). It is a plain
//! program: each two accesses are compared, and how far a command was handed on is gone over
//! barrier by barrier.
#![tactic(auto)]

mod clash;
mod finding;
mod handing;
mod laws;
mod pairs;
mod sharing;
mod telling;

pub use crate::clash::{Clash, Missing, Part, Shared, Side};
pub use crate::finding::clash_of;
pub use crate::laws::barrier_law;
pub use crate::telling::clash_text;
pub use std::alloc::AllocError as NoMemory;
