//! What a check of hazards keeps, whatever the order of commands: where commands read and write, as
//! cells of one axis; for each way of writing the last command that wrote a cell; and how far what
//! was written on a queue is covered there.
//!
//! The layers above go on from a command to the next by [`Lanes`], [`Coverage`] and [`Tops`].
//! [`doing_of`] says what a command reads and writes, [`starts_of`] where that begins, and
//! [`Cells`] in which cells it stands. What a trace reads of structures is listed once for each top,
//! as few ranges of cells, and kept in [`Tops`] as long as structures stay as they are: such a list
//! reaches the same cells (`specs/Reaching`), so that the same commands are at odds with it. [`Lanes::last_uncovered`] and [`Lanes::last_unordered`] give the last command
//! that is at odds with an access, once it is known below which numbers commands are covered and
//! ordered. Which commands count, and by which order, is a `Counted` of `specs/Counting`: on one
//! queue all by the order of barriers, and over several queues those of each queue by the order
//! over queues.
//!
//! It stands on ray_access (what commands read and write), ray_marks, ray_chains (fronts),
//! ray_status and ray_rules (the definitions). The last command of each way of writing that wrote a
//! cell is all that is asked for: where it isn't covered, it is the greatest that isn't.
#![tactic(auto)]

mod broken;
mod carried;
mod cells;
mod coverage;
mod doing;
mod lane;
mod lanes;
mod limits;
mod marking;
mod merging;
mod starts;
mod tops;

pub use crate::broken::{earlier, least};
pub use crate::carried::Carried;
pub use crate::cells::Cells;
pub use crate::coverage::{Coverage, makers_of};
pub use crate::doing::{Doing, doing_of};
pub use crate::lanes::Lanes;
pub use crate::limits::{Accessed, PerStage, PerWay};
pub use crate::starts::starts_of;
pub use crate::tops::Tops;
pub use std::alloc::AllocError as NoMemory;
