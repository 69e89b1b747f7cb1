ghost use Rattle.std.specs.Prelude.{◌≡◌, ◌≤◌, ◌<◌, ◌++◌, List, IfOk, None, Ok, length, option_map};
ghost use Rattle.ray_submits.specs.Seen.{AreSeen, signals_if, submission_refusal};
ghost use Rattle.ray_submits.specs.Semaphores.{Signal as ASignal, first_semaphore_refusal};
ghost use Rattle.ray_submits.specs.Semaphores.{submit_at};

use crate::recording::QueueRecording;
use crate::semaphores::Semaphores;
use crate::submission::Submission;
use ray_cmd::{Command, Refusal};
use std::alloc::{AllocError as NoMemory, Global};

/// The refusal of the first command below number `until` that breaks a rule on timeline semaphores,
/// V33 or V34, by the lesser that it breaks, with the position in its waits or signals as the
/// place. None exactly where none does. `until` is at most the number of commands. It takes n log n
/// steps in the number n of commands, waits and signals.
///
/// # Errors
///
/// For want of memory alone.
pub fn check_semaphores(
    alloc: Global,
    rec: &QueueRecording,
    until: u32,
) -> Result<Option<Refusal>, NoMemory>
    requires { until ≤ length rec.now.commands }
    ensures { IfOk result (λ refusal. refusal ≡ first_semaphore_refusal rec.now until) }
{
    let mut semaphores = Semaphores::new(alloc);
    for n in 0..until {
        let submission = submit_at(rec, n);
        if let Some(refusal) = refusal_of(&mut semaphores, n, submission)? {
            return Ok(Some(refusal));
        }
    }
    Ok(None)
}

// The submission that command number `n` is, where it is one.
fn submit_at(rec: &QueueRecording, n: u32) -> Option<&Submission>
    requires { n < length rec.now.commands }
    ensures { option_map (λ s. s.now) result ≡ submit_at rec.now n }
{
    match rec.recording().command(n) {
        Command::Submit => rec.submission_of(n),
        _ => None,
    }
}

// The refusal of command number `n`, with the submission that it is. Where there is none, it goes
// on past it.
fn refusal_of(
    semaphores: &mut Semaphores,
    n: u32,
    submission: Option<&Submission>,
) -> Result<Option<Refusal>, NoMemory>
    ensures refusal { IfOk result (λ refusal. (earlier : List ASignal)
        → AreSeen earlier semaphores.old
        → refusal ≡ submission_refusal n earlier (option_map (λ s. s.now) submission.entry)) }
    ensures next { result ≡ Ok None → (earlier : List ASignal) → AreSeen earlier semaphores.old
        → AreSeen (earlier ++ signals_if (option_map (λ s. s.now) submission.entry))
        semaphores.new }
{
    match submission {
        Some(submission) => semaphores.pass(n, submission),
        None => Ok(None),
    }
}
