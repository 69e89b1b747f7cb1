//! The bytes of a recording: vertex formats, the sizes of structures, and views that read records
//! where they stand.
//!
//! A view borrows a buffer's bytes and copies nothing. Its `get` is a record as plain fields, and its
//! `parts` goes over the bytes of the first records.
//!
//! The layer above uses the clauses of these. They say by `record_at` of `specs/Slices` which bytes
//! are record i, for every start, stride and number, and by `specs/Records` what the bytes say: `get`
//! is None exactly where the record isn't whole. [`HitRecord`] is written and read by `specs/Hits`,
//! and each undoes the other. [`is_inactive_mark`] and [`structure_of`] say which primitives and
//! instances are inactive, and which structure an instance refers to. [`sizes_of`] and
//! [`compacted_of`] are the formulas of `specs/StructureSizes`.
//!
//! It stands on `byteorder` (numbers as bytes). No call takes memory.
#![tactic(auto)]

mod box_view;
mod data_fault;
mod data_rule;
mod fields;
mod format;
mod hit_record;
mod inactive_mark;
mod index_view;
mod instance_record;
mod instance_view;
mod parts;
mod ray_record;
mod ray_view;
mod reference;
mod sizes;
mod slice;
mod transform;
mod transform_view;
mod vertex_view;

pub use box_view::BoxView;
pub use data_fault::DataFault;
pub use data_rule::DataRule;
pub use format::Format;
pub use hit_record::HitRecord;
pub use inactive_mark::{INACTIVE_MARK, is_inactive_mark};
pub use index_view::IndexView;
pub use instance_record::InstanceRecord;
pub use instance_view::InstanceView;
pub use parts::Parts;
pub use ray_record::RayRecord;
pub use ray_view::RayView;
pub use reference::{Reference, reference_of, structure_of};
pub use sizes::{Sizes, compacted_of, sizes_of};
pub use transform_view::TransformView;
pub use vertex_view::VertexView;
