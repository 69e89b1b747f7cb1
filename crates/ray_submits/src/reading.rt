ghost use Rattle.std.specs.Prelude.{map};
ghost use Rattle.serde_json.specs.Find.{get};
ghost use Rattle.serde_json.specs.View.{view};
ghost use Rattle.ray_cmd.specs.Recordings.{recording_of};
ghost use Rattle.ray_json.specs.Fields.{only};
ghost use Rattle.ray_submits.specs.Reading.{Answers, AnswersBy, commands_in, or_no_object};
ghost use Rattle.ray_submits.specs.Reading.{queues_of};

use crate::entries::submits;
use crate::fault::QueueFault;
use crate::recording::{QueueRecording, submitted};
use ray_cmd::{Recording, RecordingFault, recording_of};
use ray_json::{ReadFault, member, only_members};
use serde_json::Value;
use std::alloc::Global;

/// Reads a JSON value as a recording that is submitted to queues: an object of its `commands`, and
/// of `submits`, a list whose k-th entry is what the k-th `submit` is submitted with. Own.
///
/// # Errors
///
/// `BadObject` where the value is no object with exactly these members; else `BadShape(i)` as in
/// the reading of a recording; else `BadSubmits(k)` where entry `k` is the first outside its shape,
/// or there are more or fewer entries than `submit`s. `NoMemory` may come on any value.
pub fn read_queues(alloc: Global, value: &Value) -> Result<QueueRecording, QueueFault>
    ensures { Answers result (queues_of (view value.now)) }
{
    only(value, &["commands", "submits"])?;
    let commands = part(value, "commands")?;
    let entries = part(value, "submits")?;
    let recording = commands_of(alloc, commands)?;
    let entries = submits(alloc, entries)?;
    submitted(alloc, recording, entries)
}

// That the value is an object with no member but these.
fn only(value: &Value, names: &[&str]) -> Result<(), QueueFault>
    ensures { Answers result
        (or_no_object (only (map (λ name. name.now) names.now) (view value.now))) }
{
    match only_members(value, names) {
        Ok(()) => Ok(()),
        Err(ReadFault::Shape) => Err(QueueFault::BadObject),
        Err(ReadFault::NoMemory) => Err(QueueFault::NoMemory),
    }
}

// The member of this name, which has to be there.
fn part<'a>(value: &'a Value, name: &str) -> Result<&'a Value, QueueFault>
    ensures { AnswersBy (λ v. view v.now) result (or_no_object (get name.now (view value.now))) }
{
    match member(value, name) {
        Ok(part) => Ok(part),
        Err(ReadFault::Shape) => Err(QueueFault::BadObject),
        Err(ReadFault::NoMemory) => Err(QueueFault::NoMemory),
    }
}

// The commands. That it is no JSON isn't said of a value.
fn commands_of(alloc: Global, value: &Value) -> Result<Recording, QueueFault>
    ensures { Answers result (commands_in (recording_of (view value.now))) }
{
    match recording_of(alloc, value) {
        Ok(recording) => Ok(recording),
        Err(RecordingFault::BadShape(i)) => Err(QueueFault::BadShape(i)),
        Err(RecordingFault::NotJson) | Err(RecordingFault::NoMemory) => Err(QueueFault::NoMemory),
    }
}
