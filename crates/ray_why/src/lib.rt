//! Why a recording is refused, told so that its author can mend it.
//!
//! The layer above uses [`why_of`], whose clause `IsWhy` of `specs/Reasons` says that its answer is
//! that of a check of the same bytes, by `recording_of` of ray_cmd and `rule_refusal` of ray_rules,
//! and of a command without a shape which place is wrong; and [`told`], which makes a text of it
//! whose first line is the one that `vkray check` writes (`line_of` of `specs/Lines`). Of a static
//! rule it tells the member that breaks it, and what was compared; of a hazard both accesses, what
//! they share, what is missing and a barrier that mends it.
//!
//! It stands on ray_cmd (the recording), ray_shape (the place that is wrong), ray_rules (the
//! definitions of the rules), ray_causes, ray_grounds, ray_limits, ray_kinds, ray_crowds,
//! ray_updates, ray_conflicts and ray_builds (by what a static rule is broken), ray_clash (by what
//! a hazard is) and ray_told (all of that in words); who decides these rules is a [`Rules`] that
//! the layer above brings.
#![tactic(auto)]

mod line;
mod reasons;
mod rules;
mod sentences;
mod telling;
mod wanted;

pub use crate::line::{first_line, refusal_line};
pub use crate::reasons::{Broken, Misshapen, Why, why_of};
pub use crate::rules::Rules;
pub use crate::telling::told;
pub use std::alloc::AllocError as NoMemory;
