//! The theory of schedules: a device that does units of work, in any order that its commands' order
//! permits, leaves what recording order leaves.
//!
//! It names no command. What a device is stands in `specs/Units`, what happens at each moment in
//! `specs/Events`, which orders of events are permitted in `specs/Schedules`, which units conflict
//! in `specs/Conflicts`, and runs in waves in `specs/Waves`. A crate that runs a device tells by
//! [`Recorded`] what its work is, and has these laws of it, each the contract of a function:
//! [`every_schedule`] (outcomes, memory, reads and the first fault are those of recording order),
//! [`permitted_schedules`] (recording order is permitted, and so are waves), [`runs_in_waves`] (up
//! to the first fault) and [`first_commands`] (all this of the commands below a number).
//!
//! The layer above uses the clauses of these, at its own device, or the lemmas of `proofs/Whole`
//! that they stand on, by the same words. It stands on nothing.
#![tactic(auto)]

mod laws;
mod recorded;

pub use laws::{every_schedule, first_commands, permitted_schedules, runs_in_waves};
pub use recorded::Recorded;
