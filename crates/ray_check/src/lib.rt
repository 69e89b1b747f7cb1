//! The rules on a recording, decided: whether it breaks one of V1 to V32, and by which command,
//! which rule and where; and of one that is submitted to several queues, whether it breaks one of
//! V1 to V34.
//!
//! The layer above uses [`check_rules`], whose one clause says that it answers `rule_refusal` of
//! ray_rules: the refusal of the first command that breaks a rule, by its least. It joins the
//! refusal by the static rules, which ray_valid decides, and that by the rules on hazards, which
//! ray_sync decides for the commands up to the statically refused one.
//!
//! [`check_queue_rules`] does the same over queues, by `queue_rule_refusal` of `specs/Queues`.
//!
//! [`kept_is_within_buffers`] is a law on what the rules are for: a command that keeps them reads
//! and writes bytes that are there.
//!
//! ```rust
//! // The first command of a recording that breaks a rule, if any does.
//! let recording = read_recording(alloc, bytes)?;
//! if let Some(refusal) = check_rules(alloc, &recording)? {
//!     println!(rt; "command {}", refusal.command)?;
//! }
//! ```
//!
//! CALLING.md has a proved caller.
//!
//! It stands on ray_valid, ray_sync, ray_queue_check and ray_rules (the definitions).
#![tactic(auto)]

mod joining;
mod laws;
mod queues;
mod verdict;

pub use crate::laws::kept_is_within_buffers;
pub use crate::queues::check_queue_rules;
pub use crate::verdict::check_rules;
pub use std::alloc::AllocError as NoMemory;
