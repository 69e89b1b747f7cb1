ghost use Rattle.std.specs.Prelude.{◌≡◌, IfOk, string_bytes};
ghost use Rattle.ray_told.specs.Ends.{end_text};

use crate::grounds::phase_word;
use ray_rules::Phase;
use std::alloc::{AllocError as NoMemory, Global};

/// What is told of the end of a recording: the state in which the command buffer is. Own.
///
/// # Errors
///
/// For want of memory alone.
pub fn end_text(alloc: Global, found: Phase) -> Result<String, NoMemory>
    ensures { IfOk result (λ text. string_bytes text ≡ end_text found) }
{
    let found = phase_word(found);
    format!(in alloc; "at the end: the command buffer is {found}, and has to be idle\n")
}
