//! A made-up recording of any size: layers of triangles over the cells of a grid, one instance of
//! them, and rays from above, which a script lets hit what they meet.
//!
//! [`gen_text`] is the one call. The files of `specs/` say its text whole: `Grid` the vertices,
//! indices, the instance and the rays as words, `Recording` the commands as a JSON value and its
//! compact text. The crate stands on ray_bytes (the sizes of structures), `byteorder`, `hex` and
//! `serde_json`. The scene is our own: Vulkan says nothing of it.
#![tactic(auto)]

mod buffers;
mod builds;
mod grid;
mod scene;
mod traces;

pub use crate::scene::gen_text;
pub use std::alloc::AllocError as NoMemory;
