//! Serialized structures: the form that a structure is written as, which is read where its bytes
//! stand and refused at its first fault.
//!
//! The layer above uses [`SerialView`], which contracts see as the bytes, a form: `open` says by
//! `opened` of `specs/Meaning` which of the eight lines of `specs/Form` of `ray_form` bytes break
//! first, and takes no memory; `to_bottom` and `to_top` say by `bottom_in` and `top_in` which
//! structure it stands for. [`serialize`] and [`serialize_top`] give `bottom_form` and `top_form`
//! of the contents, which are forms that stand for them, and [`serialize_form_2`] gives
//! `bottom_form_2`, which carries the stated tree besides.
//!
//! It stands on `ray_form` (which bytes are a form, and its parts), `ray_tree_part` and
//! `ray_stated` (the tree of form 2), `ray_bottom` (the payload and back), `ray_top` (instances and
//! how they are read), `ray_bytes` and `ray_flags`.
#![tactic(auto)]

mod counting;
mod handles;
mod laws;
mod linking;
mod restoring;
mod stored_fault;
mod top_writing;
mod view;
mod with_tree;
mod writing;

pub use crate::counting::{handle_count, serialized_size_top};
pub use crate::laws::replaced_law;
pub use crate::stored_fault::StoredFault;
pub use crate::top_writing::serialize_top;
pub use crate::view::SerialView;
pub use crate::with_tree::{serialize_form_2, serialized_size_form_2};
pub use crate::writing::{serialize, serialized_size};
pub use ray_form::SerialFault;
pub use ray_top::BuildFault;
pub use std::alloc::AllocError as NoMemory;
