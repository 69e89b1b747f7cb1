//! A recording that is submitted to several queues: reads a JSON value as the commands of a
//! recording and what each `submit` of them is submitted with, and decides the two rules on
//! timeline semaphores.
//!
//! The layers above use [`read_queues`], whose clause says by `queues_of` of `specs/Reading`
//! exactly which values it reads and as what; [`QueueRecording`], which tells the queue of a
//! command and the submission that it belongs to (`specs/Submits`); and [`check_semaphores`], which
//! finds the first command that breaks V33 or V34 (`specs/Semaphores`).
//!
//! It stands on ray_cmd (the recording), ray_rules (which commands are of the host) and ray_json
//! (readers of fields).
#![tactic(auto)]

mod check;
mod counts;
mod entries;
mod fault;
mod point;
mod reading;
mod recording;
mod semaphores;
mod submission;

pub use crate::check::check_semaphores;
pub use crate::fault::QueueFault;
pub use crate::point::SemaphorePoint;
pub use crate::reading::read_queues;
pub use crate::recording::QueueRecording;
pub use crate::submission::Submission;
pub use std::alloc::AllocError as NoMemory;
