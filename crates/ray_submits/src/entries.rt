ghost use Rattle.std.specs.Prelude.{IfOk};
ghost use Rattle.serde_json.specs.View.{view, items_view};
ghost use Rattle.ray_submits.specs.Reading.{Answers, or_bad, submits_from, submits_of};
ghost use Rattle.ray_submits.specs.Shapes.{submission_of};
ghost use Rattle.ray_submits.specs.Submits.{HaveQueues};

use crate::fault::QueueFault;
use crate::submission::{Submission, read_submission};
use ray_json::{Listed, ReadFault};
use serde_json::Value;
use std::alloc::Global;

// The greatest number of entries, 2^26: no text that the program takes has so many.
const MOST_ENTRIES: usize = 67_108_864;

// The submissions that a value spells.
pub(crate) fn submits(alloc: Global, value: &Value) -> Result<Listed<Submission>, QueueFault>
    ensures answer { Answers result (submits_of (view value.now)) }
    ensures queues { IfOk result HaveQueues }
{
    match value.as_array() {
        Some(values) => entries(alloc, values.as_slice()),
        None => Err(QueueFault::BadSubmits(0)),
    }
}

// The submissions of the items of an array.
#[tactic(auto, unfolding(crate::specs::Reading::submits_from))]
fn entries(alloc: Global, values: &[Value]) -> Result<Listed<Submission>, QueueFault>
    ensures { Answers result (submits_from 0 (items_view values.now)) }
{
    let mut submits = Listed::new(alloc);
    for (k, value) in values.iter().enumerate() {
        if MOST_ENTRIES <= k {
            return Err(QueueFault::NoMemory);
        }
        let submission = entry(alloc, k as u32, value)?;
        submits.push(submission)?;
    }
    Ok(submits)
}

// Entry number `k`.
fn entry(alloc: Global, k: u32, value: &Value) -> Result<Submission, QueueFault>
    ensures { Answers result (or_bad k (submission_of (view value.now))) }
{
    match read_submission(alloc, value) {
        Ok(submission) => Ok(submission),
        Err(ReadFault::Shape) => Err(QueueFault::BadSubmits(k)),
        Err(ReadFault::NoMemory) => Err(QueueFault::NoMemory),
    }
}
