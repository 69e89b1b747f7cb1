//! Readers of JSON values, of which the shapes of a recording are made.
//!
//! A reader takes a value of `serde_json` and gives what a word of `specs/Fields` says the value
//! spells: a whole number, a truth value, bytes in hexadecimal digits, one word of a table, a set of
//! words, a list, a member of an object. Its one clause `Gives result (word (view value))` says
//! three things: Ok is exactly what is spelled, `Shape` comes exactly where nothing is, and want of
//! memory is free. A reader that takes no memory says besides that it never answers `NoMemory`.
//!
//! The layers above read each of their shapes with these, in the order of the shape's grammar.
//! [`Listed`] and [`Bytes`] are lists for contracts. It stands on `serde_json`, `hex` and
//! `bitflags`.
#![tactic(auto)]

mod bytes;
mod fault;
mod hex_digits;
mod list;
mod listed;
mod members;
mod numbers;
mod reader;
mod words;

pub use crate::bytes::Bytes;
pub use crate::fault::ReadFault;
pub use crate::hex_digits::read_hex;
pub use crate::list::read_list;
pub use crate::listed::Listed;
pub use crate::members::{member, only_members, optional_member};
pub use crate::numbers::{read_bool, read_u32, read_u64};
pub use crate::reader::Reader;
pub use crate::words::{read_text, read_word, read_words};
pub use std::alloc::AllocError as NoMemory;
