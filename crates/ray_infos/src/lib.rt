//! The static rules on the infos of a build: for each rule whether one info breaks it, and the least
//! info of a build that does.
//!
//! The layer above, ray_valid, uses a function a rule, from [`first_lacking`] (V1) to
//! [`first_with_unbuilt`] (V17); each gives the place where the rule is broken, by the word of
//! ray_rules that defines it. [`first_conflicting`] goes over pairs of infos.
//!
//! It stands on ray_status (what stands where) and ray_rules (the definitions).
#![tactic(auto)]

mod alignments;
mod bytes;
mod first;
mod names;
mod shapes;
mod sources;

pub use crate::alignments::first_misaligned;
pub use crate::bytes::{first_reaching_out, first_with_short_scratch};
pub use crate::names::{first_lacking, first_lacking_usage};
pub use crate::shapes::{
    first_mismatched, first_misshapen, first_preferring_both, first_too_large, first_too_small,
    is_too_many,
};
pub use crate::sources::{
    first_changed, first_forbidden, first_with_unbuilt, first_without_source,
};
