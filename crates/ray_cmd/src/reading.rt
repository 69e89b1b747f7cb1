ghost use Rattle.std.specs.Prelude.{ℕ, ◌≡◌, ◌≢◌, ◌⊎◌, Some, Err, IfOk, IfErr};
ghost use Rattle.serde_json.specs.Data.{Items, array};
ghost use Rattle.serde_json.specs.View.{view, items_view};
ghost use Rattle.ray_cmd.specs.Json.{json_of};
ghost use Rattle.ray_cmd.specs.Counting.{listed_in, less};
ghost use Rattle.ray_cmd.specs.Grammar.{command_of};
ghost use Rattle.ray_cmd.specs.Recordings.{most_members, or_bad, commands_from, recording_in, recording_of, Answers};
ghost use Rattle.ray_cmd.specs.Recorded.{IsRecordingOf, IsFirstBad};

use crate::command::Command;
use crate::counting::left_after;
use crate::fault::RecordingFault;
use crate::recording::{MOST_COMMANDS, Recording};
use crate::shapes;
use ray_json::{Listed, ReadFault};
use serde_json::Value;
use std::alloc::Global;

/// The greatest number of members that all lists of a recording have together.
const MOST_MEMBERS: u64 = 1 << 26;

/// Reads the bytes of a JSON text as a recording. Own.
///
/// # Errors
///
/// `NotJson` where the bytes are no UTF-8 or no JSON. `BadShape(i)` where command `i` is the first
/// that has no shape of a command, or with which the lists have more than 2^26 members together. It
/// is 0 for a value that is no array, and 65,536 for an array of more commands where none before is
/// bad. `NoMemory` may come on any input: the whole JSON value is read before the first command is,
/// and it can take many times the memory of the bytes.
pub fn read_recording(alloc: Global, bytes: &[u8]) -> Result<Recording, RecordingFault>
    ensures answer { Answers result (recording_in bytes.now) }
    ensures ok { IfOk result (λ cs. (ds : Items) × (json_of bytes.now ≡ Some (array ds)) × IsRecordingOf ds cs) }
    ensures bad_shape { (i : ℕ) (ds : Items) → result ≡ Err (RecordingFault.BadShape i)
        → json_of bytes.now ≡ Some (array ds) → IsFirstBad ds i }
{
    reading(alloc, bytes)
}

// The same, as the one exact clause says it.
fn reading(alloc: Global, bytes: &[u8]) -> Result<Recording, RecordingFault>
    ensures { Answers result (recording_in bytes.now) }
{
    let value = json(alloc, bytes)?;
    recording_of(alloc, &value)
}

/// Reads a JSON value as a recording, as [`read_recording`] does once it has the value. Own.
///
/// # Errors
///
/// `BadShape(i)` as there, and `NoMemory`, which may come on any value. Never `NotJson`.
pub fn recording_of(alloc: Global, value: &Value) -> Result<Recording, RecordingFault>
    ensures answer { Answers result (recording_of (view value.now)) }
    ensures json { result ≢ Err RecordingFault.NotJson }
{
    match value.as_array() {
        Some(values) => recording(alloc, values.as_slice()),
        None => Err(RecordingFault::BadShape(0)),
    }
}

// The JSON value of the bytes.
fn json(alloc: Global, bytes: &[u8]) -> Result<Value, RecordingFault>
    ensures ok { IfOk result (λ v. json_of bytes.now ≡ Some (view v)) }
    ensures err { IfErr result (λ e. (e ≡ RecordingFault.NoMemory)
        ⊎ ((e ≡ RecordingFault.NotJson) × (json_of bytes.now ≡ None))) }
{
    match Value::from_slice(alloc, bytes) {
        Ok(value) => Ok(value),
        Err(error) => {
            if error.is_memory() {
                Err(RecordingFault::NoMemory)
            } else {
                Err(RecordingFault::NotJson)
            }
        }
    }
}

// The commands of the items of an array.
#[tactic(auto, unfolding(crate::specs::Recordings::commands_from))]
fn recording(alloc: Global, values: &[Value]) -> Result<Recording, RecordingFault>
    ensures { Answers result (commands_from 0 most_members (items_view values.now)) }
{
    let mut commands = Listed::new(alloc);
    let mut left = MOST_MEMBERS;
    for (i, value) in values.iter().enumerate() {
        if MOST_COMMANDS <= i {
            return Err(RecordingFault::BadShape(MOST_COMMANDS as u32));
        }
        left = left_in(i as u32, value, left)?;
        let command = command(alloc, i as u32, value)?;
        commands.push(command)?;
    }
    Ok(Recording::new(commands))
}

// How many members lists may have after those of command number `i`.
fn left_in(i: u32, value: &Value, left: u64) -> Result<u64, RecordingFault>
    ensures { result ≡ or_bad i (less (listed_in (view value.now)) left) }
{
    left_after(value, left).ok_or(RecordingFault::BadShape(i))
}

// Command number `i`.
fn command(alloc: Global, i: u32, value: &Value) -> Result<Command, RecordingFault>
    ensures { Answers result (or_bad i (command_of (view value.now))) }
{
    match shapes::command(alloc, value) {
        Ok(command) => Ok(command),
        Err(ReadFault::Shape) => Err(RecordingFault::BadShape(i)),
        Err(ReadFault::NoMemory) => Err(RecordingFault::NoMemory),
    }
}
