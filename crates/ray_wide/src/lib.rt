//! Wide trees: each node has 2 to 8 children, which stand for subtrees of a binary box tree, and
//! their boxes beside each other in lanes.
//!
//! [`Wide`] is the one type. Contracts see it as its root, its nodes, and for each of these the
//! node of the binary tree for whose subtree it stands. The layers above use `WideOver` of
//! `specs/Wides`, which says what a wide tree over a binary one is:
//! - [`collapse`] gives one;
//! - [`Wide::refit`] makes one of a wide tree over the same nodes with other boxes, and takes no
//!   memory; [`Wide::copy`] gives the same once more;
//! - [`way_law`] says that one way leads from the root to each leaf, [`lane_law`] and
//!   [`nesting_law`] that the boxes on a way are one in the other, and [`root_law`] when there is a
//!   root.
//!
//! Want of memory is the only error.
//!
//! It stands on `ray_tree` for the binary trees, on `ray_lanes` for the lanes, on `ray_geom` for
//! boxes, and on `arrayvec` for the subtrees that are to become children. The children themselves
//! are an array with empty places, since a vector of eight with its length would take a node beyond
//! 256 bytes.
#![tactic(auto)]

mod child;
mod cut;
mod fill;
mod grow;
mod laws;
mod node;
mod wide;

pub use crate::child::Child;
pub use crate::laws::{lane_law, nesting_law, root_law, way_law};
pub use crate::node::{WideLeaf, WideNode, WideRef};
pub use crate::wide::{Wide, collapse};
pub use std::alloc::AllocError as NoMemory;
