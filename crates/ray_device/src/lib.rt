//! What the pieces of device commands do to the device's memory, in code: how many a command has,
//! what each gives at its fetch, and what its store leaves. A piece is fetched at one moment, when
//! all that it reads is read, and stored at a later one; between them its output is a [`PieceOut`].
//!
//! Contracts speak of the actions of ray_action (`piece_action` of `specs/Pieces`) and of the
//! memory that a [`ray_memory::State`] holds, as it is. The layer above uses [`fetch`], where a
//! trace's script decides, or [`fetch_with`], where a client does, and [`store`]. Their condition is
//! that the action is ready there or its output can be stored there; and there is the law that what is given where an action is ready can be stored,
//! [`outputs_are_storable`].
//!
//! It stands on ray_memory (what a state lends, and how it is changed), on ray_action (what each
//! command does), on ray_bottom and ray_top (what structures hold), on ray_serial (serialized
//! structures), and on ray_walk and ray_script (what a trace answers).
#![tactic(auto)]

mod bottoms;
mod copying;
mod fetch_fault;
mod fetching;
mod infos;
mod laws;
mod output;
mod parts;
mod piece;
mod piece_out;
mod ranges;
mod serializing;
mod storing;
mod tops;
mod tracing;

pub use crate::fetch_fault::FetchFault;
pub use crate::fetching::{fetch, fetch_with};
pub use crate::laws::{outputs_are_storable, parts_are_actions, traces_are_free};
pub use crate::output::Output;
pub use crate::parts::pieces;
pub use crate::piece::Piece;
pub use crate::piece_out::PieceOut;
pub use crate::storing::store;
