//! Whether no number stands twice.
ghost use Rattle.std.specs.Prelude.{◌≡◌, ◌↔◌, IsTrue, IfOk, false, length};
ghost use Rattle.std.specs.List.{All};
ghost use Rattle.ray_stated.specs.Apart.{AreApart};

use std::alloc::{AllocError as NoMemory, Global};

// Whether numbers are those of marks, none of which is set, and none stands twice. It sets the mark
// of each.
fn are_unmarked(marks: &mut [bool], numbers: &[u32]) -> bool
    requires { All (λ m. m ≡ false) marks.old }
    ensures { IsTrue result ↔ AreApart (length marks.old) numbers.now }
{
    for k in 0..numbers.len() {
        let i = numbers[k] as usize;
        if i >= marks.len() {
            return false;
        }
        if marks[i] {
            return false;
        }
        marks[i] = true;
    }
    true
}

// Whether numbers are below a limit and none stands twice.
pub(crate) fn are_apart(alloc: Global, limit: usize, numbers: &[u32]) -> Result<bool, NoMemory>
    ensures { IfOk result (λ b. IsTrue b ↔ AreApart limit numbers.now) }
{
    let mut marks = vec![in alloc; false; limit]?;
    let apart = are_unmarked(marks.as_mut_slice(), numbers);
    Ok(apart)
}
