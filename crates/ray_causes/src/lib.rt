//! By what a command breaks a static rule: which member of it, and which numbers were compared.
//!
//! The layer above uses [`cause_of`], whose clause says by `IsCauseAt` of `specs/Causes` that what
//! it tells is so in the recording: the member of the command that was refused has that number, id
//! or range (`specs/Ranges`, `specs/Names` and `specs/Multiples`), and the comparison fails where
//! the command stands. [`member_text`] is the JSON pointer of a member. ray_grounds, which tells
//! the same of further rules, takes [`status_there`], [`structure_named`] and [`info_at`].
//!
//! It stands on ray_status (what stands where) and ray_rules (the definitions). The members of a
//! command are gone over in one order (`listing`), and each is tested (`testing`).
#![tactic(auto)]

mod cause;
mod finding;
mod listing;
mod member;
mod multiples;
mod names;
mod naming;
mod pointer;
mod ranges;
mod testing;

pub use crate::cause::{BufferUse, Cause, Multiple};
pub use crate::finding::{cause_of, status_before, status_there};
pub use crate::member::{Member, Name};
pub use crate::names::structure_named;
pub use crate::pointer::member_text;
pub use crate::ranges::info_at;
pub use std::alloc::AllocError as NoMemory;
