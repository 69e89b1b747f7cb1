//! The static rules on a recording, decided: whether it breaks one of V1 to V24 or V28 to V31, and
//! by which command, which rule and where.
//!
//! The layer above uses [`check_static`], whose one clause says that it answers `static_refusal` of
//! ray_rules: the refusal of the first command that breaks a rule, by its least. [`refusal_of`] is
//! the same of one command, and says in relational words too that the rule is the first of the
//! table that is broken; [`goes_on`] says whether the status can go on past it, and
//! [`refusal_at_end`] what the end breaks. A function `v1`, `v2` and so on decides each rule, in
//! files by subject.
//!
//! It stands on ray_infos (the rules on the infos of a build), ray_status (what stands where),
//! ray_ranges (which ranges meet) and ray_rules (the definitions).
#![tactic(auto)]

mod buffers;
mod checking;
mod conflicts;
mod flags;
mod fresh;
mod names;
mod passing;
mod phases;
mod place;
mod seen;
mod shapes;
mod sources;
mod spans;
mod structures;

pub use crate::checking::{check_static, refusal_at_end, refusal_of};
pub use crate::passing::goes_on;
pub use std::alloc::AllocError as NoMemory;
