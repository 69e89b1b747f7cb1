//! That every order which the barriers and waits of a recording permit comes to the same: to the
//! text of recording order, or to its refusal. It has laws alone.
//!
//! The actions of a recording are the work of a device in the words of ray_schedule (`specs/Work`),
//! and a schedule of them comes to a text or to a refusal (`specs/Along`). What a run needs of an
//! order is that it separates the commands (`specs/Separates`): then conflicting actions are
//! ordered ([`rules_give_order`]), by V16 among the pieces of one command, by V28 to V30 before
//! host commands. The order of barriers and waits does so by V25 to V27; all laws stand over any
//! order that does.
//!
//! The layer above, which runs recordings, uses [`schedules_come_to_the_run`] (every permitted
//! schedule comes to the run of recording order), [`some_are_permitted`] (recording order and waves
//! are), [`fetches_are_ready`] and [`commands_run_in_waves`], and has their premise by
//! [`rules_give_order`] and [`unrefused_break_no_rule`]. Who fetches and stores in another way has
//! the condition of each call by [`actions_in_turn_are_ready`].
//!
//! It stands on ray_schedule (the theory), ray_ready (which actions are ready), ray_sync (what is
//! covered is ordered), ray_action (what actions read and write) and ray_rules.
#![tactic(auto)]

mod laws;

pub use crate::laws::{
    actions_in_turn_are_ready, commands_run_in_waves, fetches_are_ready,
    recording_comes_to_its_run, rules_give_order, schedules_come_to_the_run, some_are_permitted,
    unrefused_break_no_rule,
};
