//! The check of a recording for programs in C: one function, which `include/vkray.h` declares, and
//! hands null pointers as no bytes.
//!
//! [`vkray_check_slices`] answers what the word `check` answers of the same bytes, by `answer_of` of
//! vkray, with the text in a buffer of the caller's and the status as its number. Its clause says so
//! by `IsAnswered` of `specs/Checks`. It takes slices alone, each a pointer and a length in C, so no
//! function here has a raw pointer, and no proof follows one.
//!
//! A run needs a handle that may start threads, which an export can't have, so none is here.
//!
//! The crate stands on ray_cmd (the recording), ray_check (the rules) and vkray (the words of the
//! answer and the line of a refusal).
#![tactic(auto)]

mod checking;
mod export;
mod reply;

pub use export::vkray_check_slices;
