//! The theory of dependency chains: how far what was done is handed on by barriers, semaphores and
//! waits of the host, over any nodes, and code that keeps it up to date.
//!
//! It names no command. Steps hand on to some nodes what has reached others (`specs/Dependencies`);
//! what has reached a node is always what was done below one number, its front (`specs/Fronts`). Of
//! a buffer to which barriers are limited it is enough to keep its fronts just after the last such
//! barrier (`specs/Overrides`). `specs/Waves` has the longest chains of ordered commands. The nodes
//! of several queues and the steps of their events stand in `specs/Queues`, what is so of them in
//! `specs/QueueLaws`, and the sets of one queue in plain words in `specs/OneQueue`.
//!
//! The laws are the contracts of the functions of `laws`, and lemmas of `proofs`, where they stand
//! for any nodes. A layer above says by a list of events what its commands are, and keeps a
//! [`Front`] or a [`Table`] for each source, [`Chains`] for the queue and an [`Override`] for each
//! buffer that a barrier names: past a barrier by [`Front::barrier`], [`Table::barrier_on_all`],
//! [`Chains::barrier`] (`next`) and [`limited`] (`kept`), past waits and begins by `on_device`,
//! [`Chains::wait`] and [`Chains::begin`]. It asks by [`limit`] (`front`) below which number a
//! write is covered. It stands on nothing.
#![tactic(auto)]

mod access_type;
mod chains;
mod front;
mod kept;
mod laws;
mod masks;
mod stage;
mod table;

pub use access_type::AccessType;
pub use chains::Chains;
pub use front::Front;
pub use kept::{Override, limit, limited};
pub use laws::{
    covered_is_ordered, fronts_are_exact, fronts_stay, one_queue_has_sets, overrides_are_exact,
    queues_cross_alike, things_since, waves_are_longest,
};
pub use masks::{AccessMask, MemoryBarrier, StageMask};
pub use stage::Stage;
pub use table::Table;
