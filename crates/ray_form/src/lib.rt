//! The form of a serialized structure: which bytes are one, and where its parts stand in it.
//!
//! The layer above uses [`broken_line`], which says by `broken_line` of `specs/Form` which of the
//! eight lines of faults bytes break first, however hostile the counts in them, without memory; and
//! the calls that give the parts of a form, each by the word of `specs/Form`, `specs/Heads` or
//! `specs/InstanceBytes` of its name.
//!
//! It stands on `ray_geometries` (geometries as they are stored), `ray_tree_part` (the tree of form
//! 2), `ray_top` (instances),
//! `ray_contents`, `ray_bytes` and `ray_flags`.
#![tactic(auto)]

mod fields;
mod geometry;
mod instances;
mod lines;
mod rows;
mod serial_fault;
mod texts;

pub use crate::fields::long;
pub use crate::geometry::{after_first, stored};
pub use crate::instances::record_of;
pub use crate::lines::{
    broken_line, flags_of_payload, geometry_count, handle_count_in, has_tree, instances_of_payload,
    is_top_payload, payload_in, row_of, tree_part_in,
};
pub use crate::serial_fault::SerialFault;
pub use crate::texts::{DEVICE, FORM, FORM_2};
