//! What each command does to the device's memory, as definitions: a memory is a function from
//! locations to what they hold (`specs/Memory`); a command is a list of actions, one a piece
//! (`specs/Pieces`); an action sees a part of the memory (`specs/Seeing`), computes an outcome from
//! that alone (`specs/Outcomes`), and its store changes what it writes (`specs/Storing`). The run
//! of a recording goes from action to action (`specs/Running`), and what is shown is its text
//! (`specs/Text`).
//!
//! The layer above uses these words in its contracts, and the law that an outcome is told by what
//! the action reads, [`outcomes_are_local`].
//!
//! It stands on ray_rules (the status before a command, and the ranges of its inputs), ray_bottom
//! and ray_top (what builds make of bytes), ray_walk and ray_script (what a trace answers).
#![tactic(auto)]

mod form;
mod laws;

pub use crate::form::Form;
pub use crate::laws::{actions_touch_within, outcomes_are_local};
