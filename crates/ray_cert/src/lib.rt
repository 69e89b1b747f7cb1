//! Certificates of hits, and a small checker that says yes only to the hit of testing every
//! primitive.
//!
//! A certificate of a ray names a hit, or none, and has a string of digits for each active instance
//! whose mask is seen. Along the stated tree of the instance's structure a 1 opens a node, or has
//! the items of a leaf tested, and a 0 cuts it off. `specs/Certificates` says when it supports its
//! hit: the strings spell cuttings of the trees, nothing that is cut off is met up to the named
//! distance, and the play of what is tested commits just what is named.
//!
//! - [`Stated`] keeps stated trees by the ids of structures, and [`StatedBottoms`] lends them
//!   beside the structures;
//! - [`make_cert`] gives the certificate of an answer: it supports that, whatever the client;
//! - [`check_cert`] says yes exactly where a certificate supports its hit. What is named is then
//!   the answer over all candidates, `trace_answer` of ray_candidates. It takes a step for each box
//!   and for each primitive that it tests, at most five for a digit;
//! - [`write_cert`] gives the spelling, `line_of` of `specs/Spelling`, and [`read_cert`] the
//!   command, the ray and the certificate of which a line is the spelling, or
//!   [`CertFault::BadLine`] exactly where there are none;
//! - [`supports_law`] is the law that a supported certificate names the answer, [`commits_law`]
//!   that what is committed depends on the candidates up to its distance alone.
//!
//! Who believes the checker has to read these definitions, and no walk through trees: the crate
//! doesn't stand on ray_walk. It stands on ray_candidates (what is found of a primitive),
//! ray_stated (the trees), ray_query (the play), ray_prune (boxes), ray_top and ray_bottom. But for
//! a bad line, want of memory is the only error.
#![tactic(auto)]

mod building;
mod cert;
mod checking;
mod cutting;
mod fault;
mod finding;
mod gathering;
mod laws;
mod making;
mod meeting;
mod named;
mod places;
mod reading;
mod stated;
mod strings;
mod told_ray;
mod words;
mod writing;

pub use cert::{Cert, Digits};
pub use checking::check_cert;
pub use fault::CertFault;
pub use laws::{commits_law, supports_law};
pub use making::make_cert;
pub use named::Named;
pub use reading::{ReadCert, read_cert};
pub use stated::{Stated, StatedBottoms};
pub use writing::write_cert;
