//! The rules on a recording, as definitions: what stands where a command begins (`specs/Status`),
//! what each command reads and writes (`specs/Access`), and when a command breaks which rule
//! (`specs/Names` to `specs/Phases`, a word `v1`, `v2` and so on a rule, and the table of them in
//! `specs/Refusals`).
//!
//! The layers above cite them: ray_status keeps the status in code, ray_infos and ray_valid decide
//! the rules, so that 'accepted' means one thing everywhere. Of code the crate has the data alone
//! that the definitions speak of, and [`kind_of`], the one table of what a command is.
//!
//! It stands on ray_cmd (the commands), ray_flags and ray_bytes (flags, formats and sizes) and
//! ray_script (the rules of a script).
#![tactic(auto)]

mod access_type;
mod built;
mod byte_range;
mod kind;
mod laws;
mod live_buffer;
mod live_structure;
mod phase;
mod reach;
mod stage;
mod touch;

pub use crate::access_type::AccessType;
pub use crate::built::Built;
pub use crate::byte_range::ByteRange;
pub use crate::kind::{Kind, kind_of};
pub use crate::laws::pieces_are_of_commands;
pub use crate::live_buffer::LiveBuffer;
pub use crate::live_structure::LiveStructure;
pub use crate::phase::Phase;
pub use crate::reach::Reach;
pub use crate::stage::Stage;
pub use crate::touch::Touch;
