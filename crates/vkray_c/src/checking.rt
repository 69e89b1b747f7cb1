ghost use Rattle.std.specs.Prelude.{◌≡◌, ◌≤◌, IfOk, length, string_bytes};
ghost use Rattle.vkray.specs.Answer.{Ending, answer_of, checked};
ghost use Rattle.vkray.specs.Call.{most_bytes};
ghost use Rattle.vkray.specs.Lines as lines;
ghost use Rattle.vkray.specs.Tasks.{recorded_task};
ghost use Rattle.vkray.specs.Written.{status_of, text_of};
ghost use Rattle.vkray.specs.declared.asked.Asked.TheVariants.{Check};
ghost use Rattle.vkray.specs.declared.request.Request.TheVariants.{Input};
ghost use Rattle.vkray_c.specs.Checks.{IsEndingOfCheck};

use crate::reply::Reply;
use ray_check::check_rules;
use ray_cmd::{Recording, RecordingFault, read_recording};
use std::alloc::{AllocError as NoMemory, Global};
use vkray::{MOST_BYTES, Status, refusal_line};

// The text and the status of a check of bytes.
pub(crate) fn check_bytes(alloc: Global, bytes: &[u8]) -> Result<Reply, NoMemory>
    ensures { IfOk result (λ reply. (ending : Ending) × IsEndingOfCheck bytes.now ending
        × (reply.status ≡ status_of ending) × (reply.text.items ≡ text_of ending)) }
{
    if bytes.len() > MOST_BYTES as usize {
        return Reply::of_line(alloc, Status::TooLong, b"too-long\n");
    }
    check_within(alloc, bytes)
}

// The same of bytes that are not too many.
#[tactic(auto, unfolding(vkray::specs::Answer::answer_of))]
fn check_within(alloc: Global, bytes: &[u8]) -> Result<Reply, NoMemory>
    ensures status { IfOk result (λ reply. reply.status
        ≡ status_of (answer_of (Input Check) bytes.now)) }
    ensures text { IfOk result (λ reply. reply.text.items
        ≡ text_of (answer_of (Input Check) bytes.now)) }
{
    match read_recording(alloc, bytes) {
        Ok(recording) => check_recording(alloc, &recording),
        Err(RecordingFault::NotJson) => {
            Reply::of_line(alloc, Status::BadRecording, b"not-json\n")
        }
        Err(RecordingFault::BadShape(command)) => {
            let line = bad_shape_line(alloc, command)?;
            Reply::of_line(alloc, Status::BadRecording, line.as_bytes())
        }
        Err(RecordingFault::NoMemory) => Err(NoMemory),
    }
}

// The line of a command that has no shape of a command.
fn bad_shape_line(alloc: Global, command: u32) -> Result<String, NoMemory>
    ensures { IfOk result (λ line. string_bytes line ≡ lines.bad_shape_line command) }
{
    format!(in alloc; "bad-shape {command}\n")
}

// What the rules say of a recording: `ok`, or the line of its refusal.
fn check_recording(alloc: Global, recording: &Recording) -> Result<Reply, NoMemory>
    ensures status { IfOk result (λ reply. reply.status
        ≡ status_of (checked (recorded_task recording.now))) }
    ensures text { IfOk result (λ reply. reply.text.items
        ≡ text_of (checked (recorded_task recording.now))) }
{
    match check_rules(alloc, recording)? {
        Some(refusal) => {
            let line = refusal_line(alloc, &refusal)?;
            Reply::of_line(alloc, Status::Refused, line.as_bytes())
        }
        None => Reply::of_line(alloc, Status::Done, b"ok\n"),
    }
}
