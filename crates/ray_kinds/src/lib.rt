//! By which kind, flag or usage a command breaks a static rule: structures of the wrong kind, flags
//! that exclude one another, and usages of buffers that are made or read.
//!
//! The layer above uses [`misfit_of`], whose clause says by `IsMisfitAt` of `specs/Misfits` that
//! what it tells is so in the recording: the member of the command that was refused names this
//! structure, or has these flags, and where the command stands they don't fit. A member of the
//! command is a `Member` of ray_causes, and so is its text.
//!
//! It stands on ray_causes (members), ray_status (what stands where) and ray_rules (the
//! definitions). The members of a command are gone over in one order (`listing`), and each is
//! tested (`testing`).
#![tactic(auto)]

mod accesses;
mod fast;
mod finding;
mod kinds;
mod listing;
mod misfit;
mod pairs;
mod rays;
mod testing;
mod usages;
mod uses;
mod words;

pub use crate::finding::misfit_of;
pub use crate::misfit::{Clash, Misfit, Pair, Side, Uses};
pub use crate::words::{AccessWord, RayWord};
pub use std::alloc::AllocError as NoMemory;
