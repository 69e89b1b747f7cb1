//! What the contents of bottom and of top structures share: how a list of elements is read, what is
//! within the limits, and bounds.
//!
//! The layers above use these:
//! - `gathered` of `specs/Gathering`, the first fault, else all: what reads the elements of a
//!   geometry one after the other gives by it. [`gathered_law`] says in relational words what it is;
//! - [`point_within`], [`image_within`] and [`matrix_within`], which say by `specs/Limits` what is
//!   within the limits, as one function each;
//! - [`extended`], one step of the fold that makes bounds, and [`keeps_bounds`] and [`kept_image`],
//!   which say of a transform that the images of the corners of bounds keep the limits, and that
//!   then so does the image of each point in them;
//! - [`Elements`], a list that contracts see as a list.
//!
//! It stands on `ray_geom` and `ray_prune`. Only [`Elements`] holds memory, and none takes any.
#![tactic(auto)]

mod bounds;
mod elements;
mod gathering;
mod kept;
mod limits;

pub use crate::bounds::extended;
pub use crate::elements::Elements;
pub use crate::gathering::{Reads, gathered_law};
pub use crate::kept::{image_law, keeps_bounds, kept_image};
pub use crate::limits::{image_within, matrix_within, point_within};
