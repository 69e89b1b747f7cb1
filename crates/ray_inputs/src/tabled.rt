ghost use Rattle.std.specs.Prelude.{◌≡◌};
ghost use Rattle.serde_json.specs.View.{view};
ghost use Rattle.ray_pipe.specs.Reading.{tables_of};
ghost use Rattle.ray_inputs.specs.Inputs.{Answers, tabled_in, tabled_of, tables_in};

use crate::fault::BadInput;
use crate::json::{commands, json, only, part};
use ray_cmd::Recording;
use ray_pipe::{TableFault, Tables, read_tables};
use serde_json::Value;
use std::alloc::Global;
use std::marker::Model;

/// The commands of a recording, and the tables of hit groups by which the candidates of its traces
/// are decided. Contracts see it as both. Own.
#[derive(Drop)]
pub struct TabledRecording {
    recording: Recording,
    tables: Tables,
}

impl Model for TabledRecording {
    ghost use Rattle.ray_inputs.specs.Inputs.{TabledCommands};

    ghost Value = { TabledCommands };

    ghost view = { λ r. record { commands = r.recording; tables = r.tables } };
}

impl TabledRecording {
    /// The commands.
    pub fn recording(&self) -> &Recording
        ensures { result.now ≡ self.now.commands }
    {
        &self.recording
    }

    /// The tables of their traces.
    pub fn tables(&self) -> &Tables
        ensures { result.now ≡ self.now.tables }
    {
        &self.tables
    }
}

/// Reads the bytes of a JSON text as a recording with tables of hit groups: an object of its
/// `commands`, whose traces have no script of their own, and of `tables`, a list of what decides in
/// place of each. Own.
///
/// # Errors
///
/// `NotJson` where the bytes are no UTF-8 or no JSON; else `BadObject` where the value is no object
/// with exactly these members; else `BadShape(i)` as in the reading of a recording; else
/// `BadTable(k)` as in the reading of tables. `NoMemory` may come on any input.
pub fn read_tabled(alloc: Global, bytes: &[u8]) -> Result<TabledRecording, BadInput>
    ensures { Answers result (tabled_in bytes.now) }
{
    let value = json(alloc, bytes)?;
    tabled(alloc, &value)
}

// The same of a JSON value.
fn tabled(alloc: Global, value: &Value) -> Result<TabledRecording, BadInput>
    ensures { Answers result (tabled_of (view value.now)) }
{
    only(value, &["commands", "tables"])?;
    let list = part(value, "commands")?;
    let entries = part(value, "tables")?;
    let recording = commands(alloc, list)?;
    let tables = tables(alloc, entries, &recording)?;
    Ok(TabledRecording { recording, tables })
}

// The tables of a recording's traces.
fn tables(alloc: Global, value: &Value, recording: &Recording) -> Result<Tables, BadInput>
    ensures { Answers result (tables_in (tables_of recording.now (view value.now))) }
{
    match read_tables(alloc, value, recording) {
        Ok(tables) => Ok(tables),
        Err(TableFault::BadTable(k)) => Err(BadInput::BadTable(k)),
        Err(TableFault::NoMemory) => Err(BadInput::NoMemory),
    }
}
