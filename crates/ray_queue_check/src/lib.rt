//! What is refused of commands that are submitted to several queues, decided: the first command
//! that breaks a rule on hazards, by the order over queues, or on timeline semaphores.
//!
//! The layer above uses [`check_queues`], whose clause says that it gives the `first_queue_refusal`
//! of ray_queues. The rules on semaphores are decided by `check_semaphores` of ray_submits; of the
//! two refusals the one of the lesser command counts, and at one command that by hazards, whose
//! rules are the lesser.
//!
//! It stands on ray_queues (the order over queues and what is kept of it), ray_hazards (the lanes
//! of commands and the coverage of what they wrote), ray_chains, ray_status and ray_rules. For each
//! queue there are lanes, made when it first does anything. At each queue the coverage of what its
//! own commands wrote is kept, for each way of writing, and of what those of each other queue did:
//! between queues neither stages nor accesses matter, so that there one way stands for all.
#![tactic(auto)]

mod arriving;
mod check;
mod everywhere;
mod hazards;
mod kept;
mod lanes;
mod passed;
mod per_source;
mod sooner;

pub use crate::check::check_queues;
pub use std::alloc::AllocError as NoMemory;
