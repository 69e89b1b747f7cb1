//! Eight boxes beside each other, tested against one window at a time.
//!
//! [`Lanes8`] is the boxes, axis by axis, and [`Window`] the box that they are tested against. The
//! layer above uses the clause of [`overlap8`]: bit k of its answer is set exactly where box k and
//! the window overlap. [`overlaps`] is the same test of one box, number by number, and
//! [`padding_law`] says which lanes may be left empty. Nothing takes memory.
//!
//! It stands on std alone.
#![tactic(auto)]

mod lanes;
mod overlap;
mod padding;

pub use crate::lanes::{Lanes8, Window};
pub use crate::overlap::{overlap8, overlaps};
pub use crate::padding::{PADDED_HI, PADDED_LO, padding_law};
