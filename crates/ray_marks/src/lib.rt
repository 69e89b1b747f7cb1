//! Marks of cells that only rise: each range of cells is given a mark that is at least all marks
//! before it, and asked for the greatest mark in it that is above a limit.
//!
//! [`Marks`] is the one type. Contracts see it as the list of the cells' marks. The layer above
//! uses the clauses of [`Marks::mark`] and [`Marks::greatest_above`]: `is_marked` and `IsGreatest`,
//! which go over that list. Each takes a number of steps that is logarithmic in the number of
//! cells, and the second goes nowhere where no mark is above the limit. Memory is taken by the first
//! mark alone: cells without one cost none.
//!
//! It stands on std alone.
#![tactic(auto)]

mod mark_tree;
mod marks;
mod node;

pub use crate::marks::Marks;
pub use std::alloc::AllocError as NoMemory;
