//! Box trees over items by the order of their keys, which are fast to build: the key of a box is
//! where its middle is, the bits of the three axes in turns.
//!
//! [`build_fast`] is the one call. It gives a `Tree` of `ray_tree` over the items, and its contract
//! says that from the leftmost leaf on they stand in rising order of key and number
//! (`IsInKeyOrder` of `specs/KeyOrder`, over `key_of` of `specs/Keys`), where they are cut at each
//! inner node (`AreCut` of `specs/Cuts`), and how many levels there are at most. So the items alone
//! say what the tree is, but for the numbers of its nodes and places. Want of memory is the only
//! error.
//!
//! It stands on `ray_tree` for the tree, on `ray_geom` for boxes, on `ray_prune` for a word of its
//! specs, and on `rayon` for the sort. The keys of the items, what is sorted, and the boxes of the
//! leaves are made by several threads too, each place of a list by one of them, where there are some
//! thousand items; what a place gets doesn't depend on how many threads there are.
#![tactic(auto)]

mod build;
mod cutting;
mod entries;
mod fill;
mod layout;
mod middles;
mod plant;
mod presort;
mod threads;

pub use crate::build::build_fast;
pub use std::alloc::AllocError as NoMemory;
