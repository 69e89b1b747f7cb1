ghost use Rattle.std.specs.Prelude.{◌≡◌, ◌≤◌, IfOk, IfSome, length};
ghost use Rattle.ray_check.specs.Queues.{queue_rule_refusal};

use crate::joining::{first_of_two, looked_at};
use ray_cmd::Refusal;
use ray_queue_check::check_queues;
use ray_queues::queue_waves;
use ray_submits::QueueRecording;
use ray_valid::check_static;
use std::alloc::{AllocError as NoMemory, Global};

/// The refusal of the first command of a recording that is submitted to queues which breaks a rule
/// V1 to V34, by the least rule that it breaks, with its place: V25 to V27 and V32 in the order
/// over queues. None exactly where none does. The end counts as one further command, as in
/// [`check_rules`](crate::check_rules).
///
/// # Errors
///
/// For want of memory alone.
pub fn check_queue_rules(alloc: Global, rec: &QueueRecording) -> Result<Option<Refusal>, NoMemory>
    ensures value { IfOk result (λ refusal. refusal ≡ queue_rule_refusal rec.now) }
    ensures within { IfOk result
        (λ refusal. IfSome refusal (λ r. r.command ≤ length rec.now.commands)) }
{
    let commands = rec.recording();
    let refusal = check_static(alloc, commands)?;
    let until = looked_at(commands.len(), refusal);
    let order = queue_waves(alloc, rec, until)?;
    let later = check_queues(alloc, rec, &order)?;
    Ok(first_of_two(refusal, later))
}
