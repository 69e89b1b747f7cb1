//! The candidates of a ray, and the plain trace: what a ray query commits in a top structure, by
//! testing every primitive.
//!
//! `specs/Candidates` says what the candidates of a ray are, and `trace_answer` there what a trace
//! answers, as functions of contents alone. [`candidates_law`] says that they are what a ray finds,
//! in rising order of keys, and that no other list is; [`agreeing_law`] that they depend on the
//! structures of active instances alone.
//!
//! The layers above use [`trace_plain`], the plain program of `trace_answer`, with
//! [`QueryOptions`], and [`admit`], what is found where something is met.
//!
//! `specs/Placements` has the words by which those who walk trees,
//! or check a walk, speak of one structure: `proofs/StructureFound` and `proofs/TreeHolds` say of
//! any tree over its primitives that what is found of the tree's items is what is found in the
//! structure, and that a node's box holds what is found there. What a trace asks of what it is lent
//! is `AreStanding` of `specs/Standing`; [`standing_law`] gives it from the structures that were in
//! use.
//!
//! It stands on ray_top and ray_bottom (contents, the test of a primitive), ray_query (the play),
//! ray_tree (trees over items), ray_prune (boxes, facing) and ray_flags (opacity and culls).
#![tactic(auto)]

mod finding;
mod gathering;
mod laws;
mod options;
mod placed;
mod plain;

pub use finding::admit;
pub use laws::{agreeing_law, candidates_law, numbers_law, standing_law};
pub use options::QueryOptions;
pub use placed::Placed;
pub use plain::trace_plain;
pub use std::alloc::AllocError as NoMemory;
