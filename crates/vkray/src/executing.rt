ghost use Rattle.std.specs.Prelude.{◌≡◌, false};
ghost use Rattle.ray_cmd.specs.Recordings.{recording_in, Answers};
ghost use Rattle.ray_inputs.specs.Inputs as inputs;
ghost use Rattle.vkray.specs.declared.request.Request.TheVariants.{Input};
ghost use Rattle.vkray.specs.declared.asked.Asked.TheVariants.{Certify, Verify};
ghost use Rattle.vkray.specs.Answer.{answer_of, checked};
ghost use Rattle.vkray.specs.Endings.{Ends, EndsTo, IsWithinLimits, is_of_certificates};
ghost use Rattle.vkray.specs.Tasks.{recorded_task};

use crate::asked::Asked;
use crate::certificates::{certify_recording, verify_recording};
use crate::input_fault::InputFault;
use crate::running::{run, run_queued, run_tabled};
use crate::stop::Stop;
use ray_check::check_rules;
use ray_cmd::{Recording, RecordingFault, read_recording};
use ray_exec::Gate;
use ray_inputs::{
    BadInput, CertifiedRecording, TabledRecording, read_certified, read_queued, read_tabled,
};
use ray_submits::QueueRecording;
use std::alloc::Global;
use std::thread::Threads;

// Reads the bytes as the input of what is asked, and does that.
pub(crate) fn execute<R: Threads + Sync, G: Gate + Sync>(
    rt: &R,
    alloc: Global,
    asked: Asked,
    bytes: Vec<u8>,
    gate: &G,
) -> Result<Vec<u8>, Stop>
    requires { IsWithinLimits asked }
    ensures { EndsTo (Input asked) bytes.items result }
{
    match asked {
        Asked::Certify => certify_bytes(rt, alloc, bytes, gate),
        Asked::Verify => verify_bytes(rt, alloc, bytes, gate),
        _ => tell(rt, alloc, asked, bytes, gate),
    }
}

// The same of what has a text of its own.
#[tactic(auto, unfolding(crate::specs::Answer::answer_of))]
fn tell<R: Threads + Sync, G: Gate + Sync>(
    rt: &R,
    alloc: Global,
    asked: Asked,
    bytes: Vec<u8>,
    gate: &G,
) -> Result<Vec<u8>, Stop>
    requires limits { IsWithinLimits asked }
    requires told { is_of_certificates asked ≡ false }
    ensures { Ends (answer_of (Input asked) bytes.items) result }
{
    match asked {
        Asked::Run { workers } => match read_whole(alloc, bytes) {
            Ok(recording) => run(rt, alloc, &recording, workers, gate),
            Err(fault) => Err(Stop::from(fault)),
        },
        Asked::Check => match read_whole(alloc, bytes) {
            Ok(recording) => check(alloc, &recording),
            Err(fault) => Err(Stop::from(fault)),
        },
        Asked::Queues { workers } => match read_whole_queued(alloc, bytes) {
            Ok(queued) => run_queued(rt, alloc, &queued, workers, gate),
            Err(fault) => Err(Stop::from(fault)),
        },
        Asked::Groups => match read_whole_tabled(alloc, bytes) {
            Ok(tabled) => run_tabled(rt, alloc, &tabled, gate),
            Err(fault) => Err(Stop::from(fault)),
        },
        Asked::Certify | Asked::Verify => unreachable!("it is none of certificates"),
    }
}

// Reads the bytes as a recording. They are dropped before anything is done with it.
pub(crate) fn read_whole(alloc: Global, bytes: Vec<u8>) -> Result<Recording, RecordingFault>
    ensures { Answers result (recording_in bytes.items) }
{
    read_recording(alloc, bytes.as_slice())
}

// Reads them as a recording that is submitted to queues.
fn read_whole_queued(alloc: Global, bytes: Vec<u8>) -> Result<QueueRecording, BadInput>
    ensures { inputs.Answers result (inputs.queued_in bytes.items) }
{
    read_queued(alloc, bytes.as_slice())
}

// Reads them as a recording with tables of hit groups.
fn read_whole_tabled(alloc: Global, bytes: Vec<u8>) -> Result<TabledRecording, BadInput>
    ensures { inputs.Answers result (inputs.tabled_in bytes.items) }
{
    read_tabled(alloc, bytes.as_slice())
}

// Reads them as a recording with certificates.
fn read_whole_certified(alloc: Global, bytes: Vec<u8>) -> Result<CertifiedRecording, BadInput>
    ensures { inputs.Answers result (inputs.certified_in bytes.items) }
{
    read_certified(alloc, bytes.as_slice())
}

// Gives the certificates of the rays of an input's traces.
fn certify_bytes<R: Threads + Sync, G: Gate + Sync>(
    rt: &R,
    alloc: Global,
    bytes: Vec<u8>,
    gate: &G,
) -> Result<Vec<u8>, Stop>
    ensures { EndsTo (Input Certify) bytes.items result }
{
    match read_whole(alloc, bytes) {
        Ok(recording) => certify_recording(rt, alloc, &recording, gate),
        Err(fault) => Err(Stop::from(fault)),
    }
}

// Tells whether the lines of an input certify its rays.
fn verify_bytes<R: Threads + Sync, G: Gate + Sync>(
    rt: &R,
    alloc: Global,
    bytes: Vec<u8>,
    gate: &G,
) -> Result<Vec<u8>, Stop>
    ensures { EndsTo (Input Verify) bytes.items result }
{
    match read_whole_certified(alloc, bytes) {
        Ok(certified) => verify_recording(rt, alloc, &certified, gate),
        Err(fault) => Err(Stop::from(fault)),
    }
}

// Checks a recording: `ok` where it breaks no rule V1 to V32.
fn check(alloc: Global, recording: &Recording) -> Result<Vec<u8>, Stop>
    ensures { Ends (checked (recorded_task recording.now)) result }
{
    match check_rules(alloc, recording) {
        Ok(Some(refusal)) => Err(Stop::Input(InputFault::Refused(refusal))),
        Ok(None) => match Vec::from_slice(alloc, b"ok\n") {
            Ok(text) => Ok(text),
            Err(_) => Err(Stop::NoMemory),
        },
        Err(_) => Err(Stop::NoMemory),
    }
}
