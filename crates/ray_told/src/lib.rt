//! By what a command breaks its rule, in words: which member of it, as a JSON pointer, and what was
//! compared there.
//!
//! The layer above uses a function for each of the crates that find it, as [`cause_text`] of what
//! ray_causes tells; its clause says the whole text, by the word of `specs/` of its name. A text of
//! several accesses is that of ray_clash ([`clash_told`]).
//!
//! It stands on the crates that tell by what a rule is broken (ray_causes, ray_grounds, ray_limits,
//! ray_kinds, ray_crowds, ray_updates, ray_conflicts, ray_builds and ray_clash), as far as what
//! they tell is a value; none of what they have proved of it is used.
#![tactic(auto)]

mod builds;
mod causes;
mod clashes;
mod conflicts;
mod crowds;
mod ends;
mod grounds;
mod limits;
mod misfits;
mod numbers;
mod origins;
mod updates;
mod words;

pub use crate::builds::misbuilt_text;
pub use crate::causes::cause_text;
pub use crate::clashes::clash_told;
pub use crate::conflicts::conflict_text;
pub use crate::crowds::crowd_text;
pub use crate::ends::end_text;
pub use crate::grounds::ground_text;
pub use crate::limits::limit_text;
pub use crate::misfits::misfit_text;
pub use crate::updates::update_text;
pub use std::alloc::AllocError as NoMemory;
