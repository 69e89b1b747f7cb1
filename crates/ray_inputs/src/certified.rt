ghost use Rattle.std.specs.Prelude.{◌≡◌};
ghost use Rattle.serde_json.specs.View.{view};
ghost use Rattle.ray_inputs.specs.Inputs.{Answers, certified_in, certified_of, lines_in};

use crate::fault::BadInput;
use crate::json::{commands, json, only, part};
use crate::line::{Line, LineReader};
use ray_cmd::Recording;
use ray_json::{Listed, ReadFault, read_list};
use serde_json::Value;
use std::alloc::Global;
use std::marker::Model;

/// The commands of a recording, and lines that are to be certificates of the rays of its traces.
/// Contracts see it as both. Own.
#[derive(Drop)]
pub struct CertifiedRecording {
    recording: Recording,
    certificates: Listed<Line>,
}

impl Model for CertifiedRecording {
    ghost use Rattle.ray_inputs.specs.Inputs.{CertifiedCommands};

    ghost Value = { CertifiedCommands };

    ghost view = { λ r. record { commands = r.recording; certificates = r.certificates } };
}

impl CertifiedRecording {
    /// The commands.
    pub fn recording(&self) -> &Recording
        ensures { result.now ≡ self.now.commands }
    {
        &self.recording
    }

    /// The lines, at most 2^26.
    pub fn certificates(&self) -> &[Line]
        ensures { result.now ≡ self.now.certificates }
    {
        self.certificates.as_slice()
    }
}

/// Reads the bytes of a JSON text as a recording with certificates: an object of its `commands`,
/// and of `certificates`, a list of strings. What these say is not looked at. Own.
///
/// # Errors
///
/// `NotJson` where the bytes are no UTF-8 or no JSON; else `BadObject` where the value is no object
/// with exactly these members; else `BadShape(i)` as in the reading of a recording; else
/// `BadCertificates` where `certificates` is no list of strings. `NoMemory` may come on any input.
pub fn read_certified(alloc: Global, bytes: &[u8]) -> Result<CertifiedRecording, BadInput>
    ensures { Answers result (certified_in bytes.now) }
{
    let value = json(alloc, bytes)?;
    certified(alloc, &value)
}

// The same of a JSON value.
fn certified(alloc: Global, value: &Value) -> Result<CertifiedRecording, BadInput>
    ensures { Answers result (certified_of (view value.now)) }
{
    only(value, &["certificates", "commands"])?;
    let list = part(value, "commands")?;
    let lines = part(value, "certificates")?;
    let recording = commands(alloc, list)?;
    let certificates = certificates(alloc, lines)?;
    Ok(CertifiedRecording {
        recording,
        certificates,
    })
}

// The strings of a list.
fn certificates(alloc: Global, value: &Value) -> Result<Listed<Line>, BadInput>
    ensures { Answers result (lines_in (view value.now)) }
{
    match read_list::<LineReader>(alloc, value) {
        Ok(lines) => Ok(lines),
        Err(ReadFault::Shape) => Err(BadInput::BadCertificates),
        Err(ReadFault::NoMemory) => Err(BadInput::NoMemory),
    }
}
