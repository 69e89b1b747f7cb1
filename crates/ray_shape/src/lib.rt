//! The grammar of a recording as a table, and the first place of a JSON value that isn't as it
//! wants.
//!
//! The layer above uses [`shape_fault`]: where a recording was refused at a command for its shape,
//! it gives the path to the place that is wrong and what is wanted there, by `IsShapeFault` of
//! `specs/Faults`. [`find_wrong`] does the same for a value of any shape: its one clause says that
//! it finds something exactly where ray_cmd's grammar doesn't read the value, and that at the end
//! of the path stands what isn't wanted there. [`pointer_text`] and [`value_at`] tell of a place.
//!
//! What is wanted is data: a [`Shape`], and for an object the rows of its [`Form`] (`members_of` of
//! `specs/Table`). That the table agrees with ray_cmd's grammar is a lemma, on which the clause of
//! [`find_wrong`] rests.
//!
//! It stands on ray_cmd and ray_script (the grammar), ray_json (readers of words), ray_flags and
//! ray_bytes (the sets and formats that they read).
#![tactic(auto)]

mod explaining;
mod forms;
mod leaf;
mod leaves;
mod naming;
mod pointer;
mod shape;
mod table;
mod walking;
mod wrong;

pub use crate::explaining::{ShapeFault, shape_fault};
pub use crate::leaf::Leaf;
pub use crate::pointer::{pointer_text, value_at};
pub use crate::shape::{Field, Form, Item, Kind, Need, Shape};
pub use crate::walking::find_wrong;
pub use crate::wrong::{Fault, Step, Wanted, Wrong};
