//! The static state of a recording in code: what the commands before a command leave, as far as
//! rules speak of it, and what structures were built by.
//!
//! [`Status`] is seen by contracts as the `Status` of ray_rules, and [`Status::step`] goes from a
//! command to the next as `after` says. The checkers of the static rules and of the order go over a
//! recording with it.
//!
//! It stands on ray_rules (the definitions), ray_cmd (the commands) and ray_ranges (where structures
//! stand, so that a question on their bytes takes log n steps).
#![tactic(auto)]

mod facts;
mod inputs;
mod origins;
mod ranges;
mod sizes;
mod status;
mod step;
mod structures;
mod usages;

pub use crate::facts::{
    differ_in_kind, has_top, has_unbuilt, info_at, is_bottom, is_bottom_at, is_deserialized_at,
    is_smaller, is_top, is_top_at, is_unbuilt, lacks_a_structure, lacks_buffer, lacks_structure,
    made_size, misses, uses_wrongly,
};
pub use crate::inputs::{
    count_of, inputs_needed, inputs_read, inputs_with, named_vertices, primitives, range, vertices,
};
pub use crate::origins::{info_of, is_deserialized, uses_of};
pub use crate::ranges::{meets, structure_range};
pub use crate::sizes::{scratch_range, structure_size};
pub use crate::status::Status;
pub use crate::usages::{
    is_private, is_private_at, lacks_input, lacks_scratch, lacks_storage, lacks_structures,
    lacks_transfer_dst, lacks_transfer_src,
};
pub use std::alloc::AllocError as NoMemory;
