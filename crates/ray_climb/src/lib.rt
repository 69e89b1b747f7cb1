//! Seats that refit one box tree together: callers on threads of their own bring the boxes of new
//! items up the tree, and the tree at the end is the one that refitting gives.
//!
//! [`Climb`] owns the tree, its new items and the shared words: for each node which children have
//! arrived, and the low and the high half of its box. A [`ClimbSeat`] is the token of one caller:
//! it has no lock and waits for nobody. [`Climb::climb_leaf`] starts at a leaf. At each node the
//! caller that comes second goes on with the boxes of both children, and the first ends there.
//! Seats are made by [`Climb::split`], and come together again by [`Climb::join`].
//!
//! The rule of the words, `IsClimb` of `specs/Rule`, holds between any two atomic steps, whatever
//! seats step. The layer above uses the clause of [`Climb::close`]: where a seat has climbed from
//! each leaf once, the tree has the shape of the old one, and as each node's box the least box of
//! the new items (`IsRefit` of `specs/Refits`). [`climb_all`] does all of it, and [`climb_by`] the
//! climbs, by four seats on threads of their own or by one.
//!
//! It stands on `atomic_table`, `ray_tree` and `ray_geom`, and on `ray_prune` for words and
//! lemmas. No call takes `Wait`, and every step is sequentially consistent.
#![tactic(auto)]

mod all;
mod ascent;
mod boxes;
mod climb;
mod half;
mod limits;
mod parents;
mod rebuilt;
mod refit;
mod rule;
mod seat;
mod steps;

pub use all::{climb_all, climb_by};
pub use climb::Climb;
pub use seat::ClimbSeat;
pub use std::alloc::AllocError as NoMemory;
