//! What each command reads and writes, in code: the touches of ray_rules, each with the numbers that
//! it has on one axis on which all buffers and structures stand side by side, so that two touches
//! share something exactly where their ranges of numbers meet.
//!
//! The layer above uses [`touches_of`], whose clause says that it gives the accesses of a command,
//! and [`sharing_is_meeting`], the law of the axis.
//!
//! It stands on ray_status (what stands where) and ray_rules (the definitions).
#![tactic(auto)]

mod axis;
mod commands;
mod infos;
mod laws;
mod lists;
mod touched;
mod touches;

pub use crate::commands::{rays_traced, structures_traced};
pub use crate::laws::sharing_is_meeting;
pub use crate::touched::Touched;
pub use crate::touches::{Touches, host_touches_of, touches_of};
pub use std::alloc::AllocError as NoMemory;
