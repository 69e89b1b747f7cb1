// The JSON value of an input, and the members of an object.
ghost use Rattle.std.specs.Prelude.{map};
ghost use Rattle.serde_json.specs.Find.{get};
ghost use Rattle.serde_json.specs.View.{view};
ghost use Rattle.ray_cmd.specs.Json.{json_of};
ghost use Rattle.ray_cmd.specs.Recordings.{recording_of};
ghost use Rattle.ray_json.specs.Fields.{only};
ghost use Rattle.ray_inputs.specs.Inputs.{Answers, AnswersBy, commands_in, or_no_json};
ghost use Rattle.ray_inputs.specs.Inputs.{or_no_object};

use crate::fault::BadInput;
use ray_cmd::{Recording, RecordingFault, recording_of};
use ray_json::{ReadFault, member, only_members};
use serde_json::Value;
use std::alloc::Global;

// The JSON value of the bytes.
pub(crate) fn json(alloc: Global, bytes: &[u8]) -> Result<Value, BadInput>
    ensures { AnswersBy view result (or_no_json (json_of bytes.now)) }
{
    match Value::from_slice(alloc, bytes) {
        Ok(value) => Ok(value),
        Err(error) => {
            if error.is_memory() {
                Err(BadInput::NoMemory)
            } else {
                Err(BadInput::NotJson)
            }
        }
    }
}

// That the value is an object with no member but these.
pub(crate) fn only(value: &Value, names: &[&str]) -> Result<(), BadInput>
    ensures { Answers result
        (or_no_object (only (map (λ name. name.now) names.now) (view value.now))) }
{
    match only_members(value, names) {
        Ok(()) => Ok(()),
        Err(ReadFault::Shape) => Err(BadInput::BadObject),
        Err(ReadFault::NoMemory) => Err(BadInput::NoMemory),
    }
}

// The member of this name, which has to be there.
pub(crate) fn part<'a>(value: &'a Value, name: &str) -> Result<&'a Value, BadInput>
    ensures { AnswersBy (λ v. view v.now) result (or_no_object (get name.now (view value.now))) }
{
    match member(value, name) {
        Ok(part) => Ok(part),
        Err(ReadFault::Shape) => Err(BadInput::BadObject),
        Err(ReadFault::NoMemory) => Err(BadInput::NoMemory),
    }
}

// The commands of a recording.
pub(crate) fn commands(alloc: Global, value: &Value) -> Result<Recording, BadInput>
    ensures { Answers result (commands_in (recording_of (view value.now))) }
{
    match recording_of(alloc, value) {
        Ok(recording) => Ok(recording),
        Err(RecordingFault::NotJson) => Err(BadInput::NotJson),
        Err(RecordingFault::BadShape(i)) => Err(BadInput::BadShape(i)),
        Err(RecordingFault::NoMemory) => Err(BadInput::NoMemory),
    }
}
