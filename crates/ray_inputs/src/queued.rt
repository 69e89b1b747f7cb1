ghost use Rattle.serde_json.specs.View.{view};
ghost use Rattle.ray_submits.specs.Reading.{queues_of};
ghost use Rattle.ray_inputs.specs.Inputs.{Answers, queued_in, queues_in};

use crate::fault::BadInput;
use crate::json::json;
use ray_submits::{QueueFault, QueueRecording, read_queues};
use serde_json::Value;
use std::alloc::Global;

/// Reads the bytes of a JSON text as a recording that is submitted to queues: an object of its
/// `commands`, and of `submits`, a list of what each `submit` is submitted with. Own.
///
/// # Errors
///
/// `NotJson`; else `BadObject`, `BadShape(i)` or `BadSubmits(k)` as `read_queues` of ray_submits
/// says it of the value. `NoMemory` may come on any input.
pub fn read_queued(alloc: Global, bytes: &[u8]) -> Result<QueueRecording, BadInput>
    ensures { Answers result (queued_in bytes.now) }
{
    let value = json(alloc, bytes)?;
    queued(alloc, &value)
}

// The same of a JSON value.
fn queued(alloc: Global, value: &Value) -> Result<QueueRecording, BadInput>
    ensures { Answers result (queues_in (queues_of (view value.now))) }
{
    match read_queues(alloc, value) {
        Ok(queued) => Ok(queued),
        Err(QueueFault::BadObject) => Err(BadInput::BadObject),
        Err(QueueFault::BadShape(i)) => Err(BadInput::BadShape(i)),
        Err(QueueFault::BadSubmits(k)) => Err(BadInput::BadSubmits(k)),
        Err(QueueFault::NoMemory) => Err(BadInput::NoMemory),
    }
}
