//! That what a recording asks for can be done: each action of the commands that keep the static
//! rules is ready in its turn, so that it has an outcome, as long as no data rule is broken before
//! it. So a run of such commands always comes to a text or to a refusal.
//!
//! It is proved by one induction over the recording. Its invariant ties the status of ray_rules to
//! the memory of ray_action (`proofs/Ties`).
#![tactic(auto)]

mod laws;

pub use crate::laws::{
    accepted_have_scripts, actions_are_ready, kept_are_accepted, readiness_is_local,
    ready_is_defined, runs_are_known, sources_are_enough, unrefused_keep_rules,
};
