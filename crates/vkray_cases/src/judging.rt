ghost use Rattle.std.specs.Prelude.{IfOk};
ghost use Rattle.vkray_cases.specs.Judged.{AreJudged, IsJudged};

use crate::asking::{Told, ask, words_of};
use crate::wanted::Wanted;
use std::alloc::{AllocError, Global};
use std::thread::Threads;

/// An answer of the program, and whether it is the one that is wanted.
#[derive(Drop)]
pub struct Judged {
    /// What the program answered.
    pub told: Told,
    /// Whether its status and its text are those that are wanted.
    pub is_met: bool,
}

/// Asks the program for each of the answers that are wanted to an input, and judges each.
pub fn judge_all<R: Threads + Sync>(
    rt: &R,
    alloc: Global,
    answers: &[Wanted],
    input: &[u8],
) -> Result<Vec<Judged>, AllocError>
    ensures { IfOk result (λ judged. AreJudged input.now answers.now judged.items) }
{
    let mut judged = Vec::new(alloc);
    for wanted in answers {
        judged.push(judge(rt, alloc, wanted, input)?)?;
    }
    Ok(judged)
}

// Asks the program for one answer, and judges it.
fn judge<R: Threads + Sync>(
    rt: &R,
    alloc: Global,
    wanted: &Wanted,
    input: &[u8],
) -> Result<Judged, AllocError>
    ensures { IfOk result (λ judged. IsJudged input.now wanted.now judged) }
{
    let words = words_of(alloc, wanted.words.as_slice())?;
    let told = ask(rt, alloc, words.as_slice(), input)?;
    let is_met = wanted.is_met(&told);
    Ok(Judged { told, is_met })
}
