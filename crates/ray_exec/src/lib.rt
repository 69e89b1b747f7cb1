//! The run of a recording: its commands in waves, each piece of a wave fetched before anything of
//! it is stored, up to the first command that breaks a data rule.
//!
//! The layer above uses [`run_waves`], whose clause says that the result is the text of the run, or
//! its refusal, by `run_below` of ray_permitted. Who fetches a piece, and so decides on candidates,
//! is a [`Fetcher`]: by the traces' scripts it is [`Scripts`], with a [`Gate`] that is told when
//! each fetch begins and ends. [`run_numbered`] takes any fetcher and any wave numbers that
//! separate the commands, and [`run_in_order`] none; [`run_command`] does one command more in
//! recording order, and [`traces_can_begin`] is the law on what stands before a trace then.
//!
//! One worker goes in recording order (`in_order`). Of several each draws pieces of a wave, one by
//! one, and fetches them from the memory that all share (`drawing`); what they give is put in order
//! (`gathering`), and then stored by the thread that holds the memory (`settling`). Only `drawing`
//! starts threads; that what comes of it is the run is said of a plain loop over waves
//! (`in_waves`).
//!
//! It stands on ray_device (what pieces give and store), ray_memory (what the host's commands do),
//! ray_claim (numbers that are drawn once), ray_sync (the wave of each command), ray_ready and
//! ray_permitted (each action of commands that keep the rules is ready in its turn and in its wave,
//! and every permitted order comes to the same).
#![tactic(auto)]

mod drawing;
mod fetcher;
mod gate;
mod gathering;
mod given;
mod host;
mod in_order;
mod in_waves;
mod laws;
mod ranks;
mod run_fault;
mod running;
mod scripts;
mod settling;
mod wave;

pub use crate::fetcher::Fetcher;
pub use crate::gate::{Gate, NoGate};
pub use crate::in_order::{run_command, run_in_order};
pub use crate::laws::traces_can_begin;
pub use crate::run_fault::RunFault;
pub use crate::running::{run_numbered, run_waves};
pub use crate::scripts::Scripts;
