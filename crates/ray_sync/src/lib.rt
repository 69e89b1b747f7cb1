//! The order that barriers and waits give, decided: which command of a recording is ordered before
//! which, and the wave of each, which is the length of the longest chain of commands that ends
//! there.
//!
//! The layer above uses [`order_of`], whose clause says that what it gives is the order of the
//! recording's commands, and with it [`Order::before`] and [`Order::wave`], which are `before` and
//! `IsLongest` of ray_rules. [`covered_is_ordered`] is the law that what is covered is ordered.
//! [`check_sync`] finds the first command that breaks V25, V26, V27 or V32, by `first_hazard`, and
//! [`all_hazards`] those that come after it, too, by `hazards_below` of `specs/Hazards`.
//! [`barrier_of`], [`chain_stage`] and [`chain_access`] say a barrier, a stage and an access in the
//! words of ray_chains, as `specs/Events` does; [`holds_stage`] and [`holds_access`] say what a
//! barrier's sets hold.
//!
//! It stands on ray_rules (the definitions), ray_access (what commands read and write), ray_chains
//! and ray_hazards, which keeps the lanes and the coverage that a check of hazards goes by. The set
//! of earlier commands that have been handed on to a stage is always those below one number, of the
//! commands of one stage; so a number for each two stages is all that is kept of order. Of coverage
//! the fronts of ray_chains are kept for each of six ways of writing: one table for all that no
//! barrier names, and an override for each buffer that one names.
#![tactic(auto)]

mod check;
mod events;
mod front;
mod fronts;
mod hazards;
mod kind;
mod laws;
mod order;
mod passing;
mod per_kind;
mod sets;

pub use crate::check::{all_hazards, check_sync};
pub use crate::events::{barrier_of, chain_access, chain_stage};
pub use crate::front::Front;
pub use crate::laws::covered_is_ordered;
pub use crate::order::{Order, order_of};
pub use crate::sets::{holds_access, holds_stage};
pub use std::alloc::AllocError as NoMemory;
