//! The program as a library: one call reads a recording, decides whether it keeps the rules, runs
//! it, and writes its text.
//!
//! `main` of the program hands [`vkray`] the standard streams, tests hand it sources and sinks in
//! memory. Its clauses `answer` and `complete` say how a call ends and what is written, by
//! `answer_of` of `specs/Answer`, which goes from a request and its input to a text or why there is
//! none, and by `specs/Call`.
//!
//! Its clause `headline` says of every request that runs, where it ends well, that what is written
//! is what is told along every order which its job permits, by `specs/Headline`. What the job is,
//! with the refusal of its commands, stands in `specs/Tasks`: a recording on one queue by its
//! scripts or by tables of hit groups, or one that is submitted to several queues. Which of them a
//! request has, and what is told, are functions of it in `specs/Answer`: a request more is a line
//! in each.
//!
//! ```rust
//! // What `vkray run` prints of a recording in memory.
//! let mut source = MemSource::new(recording, 4096, Vec::new(alloc));
//! let mut sink = MemSink::new(alloc, 1 << 20, 4096, Vec::new(alloc))?;
//! let status = vkray(rt, alloc, words.as_slice(), &mut source, &mut sink, &NoGate);
//! ```
//!
//! CALLING.md has a proved caller.
//!
//! A recording runs up to the command that a rule on commands alone refuses, by ray_check; ray_exec
//! runs so many commands. A self run reads and runs the recording of a made-up scene by the
//! same calls, and counts the records that it leaves, by `specs/Counting`.
//!
//! It stands on ray_io (all bytes read and written), ray_cmd and ray_inputs (the recording, and
//! what belongs to it), ray_check (the rules on the recording alone), ray_exec (its run),
//! ray_queues (the order over queues), ray_pipe (hit groups) and ray_scene (recordings that are
//! made up).
#![tactic(auto)]

mod asked;
mod by_tables;
mod certificates;
mod counting;
mod executing;
mod input_fault;
mod line;
mod reply;
mod request;
mod running;
mod self_run;
mod self_words;
mod status;
mod stop;
mod top_call;
mod words;

pub use input_fault::InputFault;
pub use line::refusal_line;
pub use ray_exec::{Gate, NoGate};
pub use ray_scene::gen_text;
pub use status::Status;
pub use std::alloc::AllocError as NoMemory;
pub use stop::Stop;
pub use top_call::{MOST_BYTES, vkray};
