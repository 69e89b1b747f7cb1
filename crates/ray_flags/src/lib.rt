//! The flags of a recording: their words, and what the flags of rays and instances admit.
//!
//! Six sets of flags, each a `bitflags::Flags`: [`Usage`], [`BuildFlags`], [`RayFlags`],
//! [`InstanceFlags`], [`Stages`], [`Access`]. The flags of each are a type of `specs/Flags`, with
//! their bits, and their words one table of `specs/Words`; a test of a flag, as `ray_has`, is what
//! `contains` of a constant answers. All but `InstanceFlags` have `from_word`, whose clause `row`
//! says that a flag is found exactly where the table has a row of that word with its bits. What
//! they share is proved once, in `Words`.
//!
//! The layer above uses [`effective`], the opacity of a primitive, and [`culled`], whose clauses
//! say by `opacity_of` and `IsCulled` of `specs/Admission` which primitives a ray passes over for
//! their kind, their opacity or their face. [`shows_front`] is the face that it sees.
//!
//! It stands on `bitflags` alone. No call takes memory.
#![tactic(auto)]

mod access;
mod admission;
mod build_flags;
mod instance_flags;
mod kind;
mod ray_flags;
mod stages;
mod usage;
mod words;

pub use access::Access;
pub use admission::{culled, effective, shows_front};
pub use build_flags::BuildFlags;
pub use instance_flags::InstanceFlags;
pub use kind::Kind;
pub use ray_flags::RayFlags;
pub use stages::Stages;
pub use usage::Usage;
