//! Of what a command that breaks a static rule has more than it may, and which distance of its
//! script is out of range.
//!
//! The layer above uses [`crowd_of`], whose clause says by `IsCrowdAt` of `specs/Crowds` that what
//! it tells is so in the recording: at this spot of the command that was refused there are so many,
//! and fewer may be, or this distance stands. [`spot_text`] is the JSON pointer of a spot.
//!
//! It stands on ray_causes (members), ray_status (what stands where) and ray_rules (the
//! definitions).
#![tactic(auto)]

mod counting;
mod crowd;
mod entries;
mod finding;
mod listing;
mod pointer;
mod rules;
mod spot;
mod testing;

pub use crate::crowd::{Count, Crowd, Distance, OfScript};
pub use crate::finding::crowd_of;
pub use crate::pointer::spot_text;
pub use crate::spot::Spot;
pub use std::alloc::AllocError as NoMemory;
