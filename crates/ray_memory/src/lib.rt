//! The device's memory in code: live buffers with their bytes, and live structures with what they
//! hold.
//!
//! Contracts see a [`State`] as the memory of ray_action (`memory_of` of `specs/State`), a function
//! from locations to what they hold. Each call that changes it says what is at every location
//! afterwards, by the words of ray_action; each that reads it says which part of the memory it
//! lends. The layer above uses these clauses to fetch and to store the pieces of commands. What a
//! trace reads is lent as [`TraceInputs`].
//!
//! It stands on ray_action (what a memory is, and what the commands of the host do), and on
//! ray_bottom and ray_top (what structures hold).
#![tactic(auto)]

mod buffer;
mod lending;
mod line;
mod making;
mod state;
mod storing;
mod structure;
mod text;
mod tracing;

pub use crate::state::State;
pub use crate::tracing::{TraceInputs, ray_at};
