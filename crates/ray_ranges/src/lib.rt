//! Ranges of whole numbers: which of them meet, and where things stand that may share no byte.
//!
//! [`DisjointRanges`] is a set of ranges that are apart. [`first_meeting`] and its kin,
//! [`first_meeting_earlier`] and [`first_meeting_any`], find the first range of a list that meets
//! another, in n log n.
//! [`Placed`] says for ids where each stands, and answers in log n whether a place is free, and
//! [`first_overlapping`] finds the first place of a list that shares a byte with an earlier one.
//!
//! The layer above uses the clauses of these. Each is an equation with a word of `specs/`: `meets`,
//! `meets_any`, `first_meeting` and its kin, `place_at`, `overlaps_any` and `holds_any`, which go
//! over plain lists.
//!
//! It stands on std alone. Numbers have 128 bits, so that no sum of an offset and a size wraps.
#![tactic(auto)]

mod addresses;
mod disjoint_ranges;
mod first;
mod overlapping;
mod place;
mod placed;
mod range;
mod sweep;

pub use disjoint_ranges::DisjointRanges;
pub use first::{first_meeting, first_meeting_any, first_meeting_earlier};
pub use overlapping::first_overlapping;
pub use place::Place;
pub use placed::Placed;
pub use range::Range;
pub use std::alloc::AllocError as NoMemory;
