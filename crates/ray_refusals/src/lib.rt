//! All refusals of a recording, and not the first alone: advice, since a command that breaks a rule
//! leaves no defined state.
//!
//! The layer above uses [`every_refusal`], whose clauses say by `statics_of` of `specs/Every` and
//! `hazards_below` of ray_sync what it gives; and [`every_text`], which makes a text of it, by
//! `every_told` of `specs/Told`.
//!
//! It stands on ray_valid (the static rules), ray_sync (the rules on hazards), ray_status and
//! ray_rules (the definitions), and on ray_why (the line of a refusal).
#![tactic(auto)]

mod every;
mod statics;
mod telling;

pub use crate::every::{Every, every_refusal};
pub use crate::telling::every_text;
pub use std::alloc::AllocError as NoMemory;
