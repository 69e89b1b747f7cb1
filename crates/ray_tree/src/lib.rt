//! Binary box trees over items, some of them inactive: a leaf has 1 to 4 items, and the box of each
//! node is the least box of the items below it.
//!
//! [`Tree`] is the one type. Contracts see it as its nodes, their boxes, and the items' numbers in
//! the order of their places. The layers above use `TreeOver` of `specs/Trees`, which says what a
//! tree over items is:
//! - [`build_median`] gives one, by halves, and [`build_over`] that over an order of the items;
//! - [`Tree::of_parts`] takes one in parts, and so do other builders;
//! - [`Tree::is_tree_over`] is true exactly of one, and takes no memory, and so is [`is_over`] of parts;
//! - [`nesting_law`], [`leaf_law`], [`level_law`] and [`root_law`] say how its nodes stand to each
//!   other and to the items.
//!
//! For other builders there are [`least_in`], the least box of a leaf, and [`has_items`] with
//! [`count_active`], whether numbers are those of the active items.
//!
//! What hangs on the nodes alone is `IsShape`, which [`Tree::shape`] gives of every tree, and
//! `shape_at` of `specs/Trees` is what is from a node down; `proofs/NodeLaws` has its laws at one
//! node. Want of memory is the only error.
//!
//! It stands on `ray_geom`, and on `ray_prune` for a lemma.
#![tactic(auto)]

mod activity;
mod arrange;
mod build;
mod fill;
mod laws;
mod least;
mod leaves;
mod node;
mod order;
mod over;
mod plant;
mod tree;

pub use crate::activity::{count_active, has_items};
pub use crate::build::{build_median, build_over};
pub use crate::laws::{leaf_law, level_law, nesting_law, root_law};
pub use crate::least::least_in;
pub use crate::node::Node;
pub use crate::over::is_over;
pub use crate::tree::Tree;
pub use std::alloc::AllocError as NoMemory;
