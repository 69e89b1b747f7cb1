//! The query machine of a ray: what is found on the ray's way is shown to a query, which offers it
//! to a client and keeps the committed hit.
//!
//! The calls of a [`Query`] stand for the instructions of SPV_KHR_ray_query. `specs/Play` says what
//! they come to: the play of a list of what was found, in rising order of keys (`specs/Key`), by
//! the decisions of a client. Contracts see a query as the play's own state (`specs/Machine`), and
//! each call is one step of it.
//!
//! The layer above uses the clauses of [`Query::play_one`] and [`Query::play`], by which a query
//! and a client play as the client's meaning says, and that of [`record_of`], the record of a
//! committed hit. [`RawFound`] is what was found before its fractions are put in lowest terms. A
//! [`Client`] tells its meaning, a decision as a function of the candidate;
//! [`ByFn`] makes one of a function. Traces, which find candidates, stand above
//! (ray_candidates, ray_walk).
//!
//! Laws are calls that do nothing and whose contract is the law: [`chosen_law`], [`ignoring_law`],
//! [`confirming_law`] and [`parts_law`] say by `specs/Laws` that the play is what Vulkan means,
//! [`passing_law`] what a trace may leave out.
//!
//! It stands on ray_geom (fractions), ray_flags (kinds and flags) and ray_bytes (records). No call
//! takes memory.
#![tactic(auto)]

mod by_fn;
mod candidate;
mod client;
mod commit;
mod decision;
mod found;
mod key;
mod laws;
mod query;
mod raw_found;
mod record;
mod step;

pub use by_fn::{ByFn, Function};
pub use candidate::Candidate;
pub use client::Client;
pub use commit::Commit;
pub use decision::Decision;
pub use found::Found;
pub use key::Key;
pub use laws::{chosen_law, confirming_law, ignoring_law, parts_law, passing_law};
pub use query::Query;
pub use raw_found::RawFound;
pub use record::record_of;
pub use step::Step;
