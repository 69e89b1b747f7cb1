//! The recording: reads a JSON text as the commands of a recording, or says which command is the
//! first that has no shape of a command.
//!
//! The layers above use [`read_recording`], whose clause `answer` says by `recording_in` of
//! `specs/Recordings` exactly which texts it reads and as what; its clauses `ok` and `bad_shape`
//! say the same of each item, by the words of `specs/Recorded`. [`recording_of`] is the same of a
//! JSON value that was read. The grammar of a command is `command_of` of `specs/Grammar`, a line a
//! member; it goes from the data of a JSON value to a [`Command`], and names no program. A command
//! is data: an enum with one variant a command and its members as fields.
//!
//! It stands on ray_json (readers of fields), ray_flags and ray_bytes (words and formats) and
//! ray_script (the rules of a script).
#![tactic(auto)]

mod asked;
mod build_mode;
mod command;
mod copy_mode;
mod counting;
mod fault;
mod fields;
mod flag_sets;
mod forms;
mod geometry;
mod geometry_kind;
mod index;
mod info;
mod op;
mod place;
mod read_form;
mod reading;
mod recording;
mod refusal;
mod region;
mod rule;
mod shapes;
mod spot;
mod stretch;
mod structure_kind;
mod thing;

pub use crate::asked::Asked;
pub use crate::build_mode::BuildMode;
pub use crate::command::Command;
pub use crate::copy_mode::CopyMode;
pub use crate::fault::RecordingFault;
pub use crate::forms::is_form_2;
pub use crate::geometry::Geometry;
pub use crate::index::Index;
pub use crate::info::Info;
pub use crate::place::Place;
pub use crate::read_form::ReadForm;
pub use crate::reading::{read_recording, recording_of};
pub use crate::recording::Recording;
pub use crate::refusal::Refusal;
pub use crate::region::Region;
pub use crate::rule::Rule;
pub use crate::spot::Spot;
pub use crate::stretch::Stretch;
pub use crate::structure_kind::StructureKind;
pub use crate::thing::Thing;
pub use ray_bytes::{DataRule, Format};
pub use ray_flags::{Access, BuildFlags, RayFlags, Stages, Usage};
pub use ray_json::{Bytes, Listed};
pub use ray_script::{RawChoice, RawRule};
