//! The inputs of words that read more than a recording: a recording with the tables of hit groups
//! of its traces, one that is submitted to several queues, and one with certificates of its hits.
//! Each is a JSON object.
//!
//! The layer above uses [`read_tabled`], [`read_queued`] and [`read_certified`]; their clauses say
//! by `tabled_in`, `queued_in` and `certified_in` of `specs/Inputs` exactly which bytes they read
//! and as what, and which fault of an input is told where there are several.
//!
//! It stands on ray_cmd (the recording), ray_pipe (tables of hit groups), ray_submits (submissions
//! to queues) and ray_json (members of objects).
#![tactic(auto)]

mod certified;
mod fault;
mod json;
mod line;
mod queued;
mod tabled;

pub use crate::certified::{CertifiedRecording, read_certified};
pub use crate::fault::BadInput;
pub use crate::line::Line;
pub use crate::queued::read_queued;
pub use crate::tabled::{TabledRecording, read_tabled};
pub use std::alloc::AllocError as NoMemory;
