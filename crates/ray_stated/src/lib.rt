//! Stated trees: box trees that are a function of the boxes alone; and trees as they are stored.
//!
//! - [`build_stated`] gives the stated tree over items, `stated_tree` of `specs/Stated`: the tree
//!   by halves whose items stand in the order of `specs/Order`;
//! - [`store`] gives a tree's nodes as [`StoredNode`]s, which carry it beside its items' order;
//! - [`tree_of`] takes any stored nodes and any order, and gives the tree over the items that they
//!   carry (`IsCarried` of `specs/Stored`), or NotTree exactly where they carry none;
//! - [`carried_law`], [`stated_law`] and [`stored_law`] say that they carry one tree at most, which
//!   `carried` of `specs/Carried` gives, that the stated tree is carried by its spelling, and that
//!   a tree in preorder is read back from what is stored of it.
//!
//! Serialized structures that carry a tree are to stand on these. The crate stands on `ray_tree`,
//! on `ray_geom`, and on `ray_prune` for a word. Want of memory is the only error besides.
#![tactic(auto)]

mod apart;
mod arrange;
mod build;
mod entry;
mod laws;
mod reach;
mod reader;
mod select;
mod stored;
mod storing;
mod tree_fault;
mod walk;

pub use crate::build::build_stated;
pub use crate::laws::{carried_law, stated_law, stored_law};
pub use crate::reader::tree_of;
pub use crate::stored::StoredNode;
pub use crate::storing::store;
pub use crate::tree_fault::TreeFault;
pub use ray_tree::NoMemory;
