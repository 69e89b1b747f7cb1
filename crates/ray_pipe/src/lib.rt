//! Hit groups: tables that say which script decides on a candidate, by its instance and geometry.
//!
//! A table is a [`Groups`], a `Client` of ray_query: it means `group_decision` of `specs/HitGroup`,
//! the decision of the script with the candidate's index. [`read_tables`] reads the tables of a
//! recording's traces; its clause says by `tables_of` of `specs/Reading` exactly which values it
//! reads and as what. The layer above uses it, and [`Tables::of_command`], which lends the client
//! of a command, as `clients` of `specs/Tables` says.
//!
//! It stands on ray_cmd (the recording), ray_script (scripts), ray_query (clients) and ray_json
//! (readers of fields).
#![tactic(auto)]

mod entries;
mod fault;
mod groups;
mod reading;
mod shape;
mod tables;
mod traces;

pub use crate::fault::TableFault;
pub use crate::groups::Groups;
pub use crate::reading::read_tables;
pub use crate::tables::Tables;
pub use std::alloc::AllocError as NoMemory;
