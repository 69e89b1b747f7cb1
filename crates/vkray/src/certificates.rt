// The certificates of a recording's rays, made and checked.
ghost use Rattle.std.specs.Prelude.{◌≡◌, ◌==◌, None, length};
ghost use Rattle.ray_rules.specs.Order.{barriers};
ghost use Rattle.ray_rules.specs.Verdict.{rule_refusal};
ghost use Rattle.ray_certify.specs.Rays.{ray_count};
ghost use Rattle.vkray.specs.Endings.{IsCertifiedTo, IsCounted, IsVerifiedTo};
ghost use Rattle.vkray.specs.Lines.{verdict_line};

use crate::input_fault::InputFault;
use crate::line::verdict_line;
use crate::running::{ended, run_until};
use crate::stop::Stop;
use ray_certify::{Verdict, certify, ray_count, verify};
use ray_check::check_rules;
use ray_cmd::Recording;
use ray_exec::Gate;
use ray_inputs::{CertifiedRecording, Line};
use ray_memory::State;
use ray_permitted::unrefused_break_no_rule;
use std::alloc::Global;
use std::thread::Threads;

// Runs a recording, and gives the certificates of its rays.
pub(crate) fn certify_recording<R: Threads + Sync, G: Gate + Sync>(
    rt: &R,
    alloc: Global,
    recording: &Recording,
    gate: &G,
) -> Result<Vec<u8>, Stop>
    ensures { IsCertifiedTo recording.now result }
{
    match check_rules(alloc, recording) {
        Ok(Some(refusal)) => {
            let mut state = State::new(alloc);
            let until = refusal.command;
            let run = run_until(rt, alloc, &mut state, recording, until, 1, gate);
            ended(run, Some(refusal))
        }
        Ok(None) => certify_all(rt, alloc, recording, gate),
        Err(_) => Err(Stop::NoMemory),
    }
}

// The same of a recording none of whose commands is refused by the rules on them alone.
fn certify_all<R: Threads + Sync, G: Gate + Sync>(
    rt: &R,
    alloc: Global,
    recording: &Recording,
    gate: &G,
) -> Result<Vec<u8>, Stop>
    requires { rule_refusal (barriers recording.now) recording.now ≡ None }
    ensures { IsCertifiedTo recording.now result }
{
    unrefused_break_no_rule(recording);
    match certify(rt, alloc, recording, gate) {
        Ok(lines) => Ok(lines),
        Err(fault) => Err(Stop::from(fault)),
    }
}

// Runs a recording, and tells whether its lines certify its rays.
pub(crate) fn verify_recording<R: Threads + Sync, G: Gate + Sync>(
    rt: &R,
    alloc: Global,
    certified: &CertifiedRecording,
    gate: &G,
) -> Result<Vec<u8>, Stop>
    ensures { IsVerifiedTo certified.now result }
{
    verify_lines(
        rt,
        alloc,
        certified.recording(),
        certified.certificates(),
        gate,
    )
}

// The same of a recording and lines.
fn verify_lines<R: Threads + Sync, G: Gate + Sync>(
    rt: &R,
    alloc: Global,
    recording: &Recording,
    lines: &[Line],
    gate: &G,
) -> Result<Vec<u8>, Stop>
    ensures { IsVerifiedTo (record { commands = recording.now; certificates = lines.now })
        result }
{
    match check_rules(alloc, recording) {
        Ok(Some(refusal)) => {
            let mut state = State::new(alloc);
            let until = refusal.command;
            let run = run_until(rt, alloc, &mut state, recording, until, 1, gate);
            ended(run, Some(refusal))
        }
        Ok(None) => verify_all(rt, alloc, recording, lines, gate),
        Err(_) => Err(Stop::NoMemory),
    }
}

// The same where none of the commands is refused by the rules on them alone.
fn verify_all<R: Threads + Sync, G: Gate + Sync>(
    rt: &R,
    alloc: Global,
    recording: &Recording,
    lines: &[Line],
    gate: &G,
) -> Result<Vec<u8>, Stop>
    requires { rule_refusal (barriers recording.now) recording.now ≡ None }
    ensures { IsVerifiedTo (record { commands = recording.now; certificates = lines.now })
        result }
{
    unrefused_break_no_rule(recording);
    match verify(rt, alloc, recording, lines, gate) {
        Ok(verdict) => {
            if are_as_many(lines, recording) {
                judged(alloc, lines.len(), verdict)
            } else {
                Err(Stop::Input(InputFault::BadCertificates))
            }
        }
        Err(fault) => Err(Stop::from(fault)),
    }
}

// Whether there are as many lines as rays.
fn are_as_many(lines: &[Line], recording: &Recording) -> bool
    ensures { result ≡ (length lines.now == ray_count recording.now (length recording.now)) }
{
    lines.len() as u64 == ray_count(recording)
}

// The line of a verdict on so many lines.
fn judged(alloc: Global, count: usize, verdict: Verdict) -> Result<Vec<u8>, Stop>
    ensures { IsCounted (verdict_line count verdict) result }
{
    match verdict_line(alloc, count, verdict) {
        Ok(line) => Ok(line.into_bytes()),
        Err(_) => Err(Stop::NoMemory),
    }
}
