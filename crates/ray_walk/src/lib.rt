//! The walk of a ray through the trees of structures: what a ray query commits in a top structure,
//! with few tests.
//!
//! The layer above uses [`trace_ray`], whose answer is `trace_answer` of ray_candidates: a walk
//! through the trees of structures, nearest first, which tests no more primitives than those of the
//! leaves whose box, and every box above it, is met up to the committed distance (`specs/Traced`).
//! It goes over wide nodes, eight boxes at once (`specs/WideScene`), and passes by those of which
//! one child alone is met. A ray along an axis goes by its window. Of each other one the window is
//! wide; a test in fixed point tells which boxes are met and from where on, so that few boxes but
//! those of leaves are tested exactly (`specs/Bounding`). [`trace_plain`], of ray_candidates, has
//! the same answer; it tests every primitive, and stays as the plain program of that definition.
//!
//! ```rust
//! // The hit that a client commits of a ray, with the cull mask of all bits.
//! let mut turns = Turns::new(alloc);
//! let options = QueryOptions { number: 0, flags: RayFlags(0), mask: 255 };
//! let commit = trace_ray(&top, &bottoms, &ray, options, &client, &mut turns, &mut steps)?;
//! ```
//!
//! CALLING.md has a proved caller, and how its conditions are had.
//!
//! It stands on ray_candidates (what a ray finds), ray_top and ray_bottom (contents, the test of a
//! primitive), ray_wide, ray_lanes and ray_window (the wide trees and what a window leaves out),
//! ray_slabs (the test in fixed point), ray_nearest (the walk) and ray_query (the play).
#![tactic(auto)]

mod aim;
mod bounding;
mod children;
mod descent;
mod held;
mod leaf;
mod level;
mod meeting;
mod opening;
mod ray_scene;
mod set_bits;
mod tracing;
mod trees;
mod view;

pub use ray_candidates::{QueryOptions, trace_plain};
pub use ray_nearest::Turns;
pub use std::alloc::AllocError as NoMemory;
pub use tracing::trace_ray;
