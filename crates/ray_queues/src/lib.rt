//! Commands that are submitted to several queues: the order that barriers, timeline semaphores and
//! waits of the host give them, decided: which command is ordered before which, and the wave of
//! each, which is the length of the longest chain of commands that ends there.
//!
//! The order is a second `Ordering` of ray_rules, `queue_order` of `specs/QueueOrder`, over the
//! nodes and steps of ray_chains; what a command is to them stands in `specs/Events`, and what is
//! refused by it and by the rules on semaphores in `specs/Refusals`. The layers above use
//! [`queue_waves`], whose clause says that what it gives is that order, and with it
//! [`QueueOrder::before`] and [`QueueOrder::waves`] (`waves_law`). Workers go by the rounds of
//! `specs/Rounds`, longest chains where the host goes ahead of the device up to each `wait`, so
//! that pieces of several submissions are done beside each other ([`QueueOrder::rounds`]). Two
//! laws: with one queue and no semaphores it is the order of barriers and waits
//! ([`one_queue_has_barriers`]), and what is covered is ordered ([`queue_covered_is_ordered`]). The
//! recording is that of ray_submits, whose calls are here too. Of what is refused the part on
//! semaphores is decided, by [`check_semaphores`]; the part on hazards is decided in the crate
//! above, by [`Keeping`], which is what is kept of the order from a command to the next.
//!
//! It stands on ray_submits (the recording and its submissions), ray_sync (what barriers are to
//! chains), ray_chains and ray_rules (the theory of chains, the order of one queue). What the
//! commands of a queue at a stage did has reached a stage of a queue below one number; so a number
//! for each two stages of each two queues is all that is kept, with those that are carried by each
//! signal that raises its semaphore.
#![tactic(auto)]

mod arrived;
mod keeping;
mod laws;
mod limits;
mod marks;
mod order;
mod per_queue;
mod rising;
mod rounds;
mod sources;
mod targets;
mod wave_kind;

pub use crate::keeping::{Keeping, queue_in};
pub use crate::laws::{one_queue_has_barriers, queue_covered_is_ordered};
pub use crate::order::{QueueOrder, queue_waves};
pub use crate::per_queue::{PerQueue, PerStage};
pub use ray_submits::{
    QueueFault, QueueRecording, SemaphorePoint, Submission, check_semaphores, read_queues,
};
pub use std::alloc::AllocError as NoMemory;
