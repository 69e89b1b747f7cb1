ghost use Rattle.std.specs.Prelude.{◌≡◌, List, IfOk, Ok};
ghost use Rattle.ray_cmd.specs.declared.command.Command.{Command as ACommand};
ghost use Rattle.ray_cmd.specs.Recordings.{recording_in};
ghost use Rattle.ray_rules.specs.Order.{barriers};
ghost use Rattle.ray_rules.specs.Verdict.{rule_refusal};

use ray_check::check_rules;
use ray_cmd::{Recording, RecordingFault, Refusal, read_recording};
use std::alloc::Global;

/// What the rules V1 to V32 say of the bytes of a recording: the first command that breaks one, by
/// its least, or nothing.
///
/// # Errors
///
/// As of reading a recording: the bytes are none, or memory ran out.
pub fn verdict(alloc: Global, bytes: &[u8]) -> Result<Option<Refusal>, RecordingFault>
    ensures { IfOk result (λ refusal. (rec : List ACommand)
        × (recording_in bytes.now ≡ Ok rec)
        × (refusal ≡ rule_refusal (barriers rec) rec)) }
{
    match read_recording(alloc, bytes) {
        Ok(recording) => refusal_of(alloc, &recording),
        Err(fault) => Err(fault),
    }
}

// The same of a recording.
fn refusal_of(alloc: Global, recording: &Recording) -> Result<Option<Refusal>, RecordingFault>
    ensures { IfOk result (λ refusal.
        refusal ≡ rule_refusal (barriers recording.now) recording.now) }
{
    match check_rules(alloc, recording) {
        Ok(refusal) => Ok(refusal),
        Err(_) => Err(RecordingFault::NoMemory),
    }
}
