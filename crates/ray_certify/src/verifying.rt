// Whether lines certify the rays of a run's traces.
ghost use Rattle.std.specs.Prelude.{◌≡◌, ◌<◌, ◌↔◌, ◌∷◌, [], IfOk, IfSome, IsSomeAnd, IsTrue, Some};
ghost use Rattle.std.specs.Prelude.{length, option_copied, slice_get};
ghost use Rattle.ray_action.specs.Clients.{HasScript};
ghost use Rattle.ray_action.specs.Pieces.{command_at};
ghost use Rattle.ray_exec.specs.Laws.{CanBegin};
ghost use Rattle.ray_flags.specs.Admission.{AsksBoth};
ghost use Rattle.ray_memory.specs.State.{memory_of};
ghost use Rattle.ray_permitted.specs.Job.{recorded};
ghost use Rattle.ray_ready.specs.Accepted.{KeepStaticRules};
ghost use Rattle.ray_certify.specs.declared.verdict.Verdict.TheVariants.{Certified};
ghost use Rattle.ray_certify.specs.Certified.{RunsWith};
ghost use Rattle.ray_certify.specs.Rays.{rays_below, traced_ray};
ghost use Rattle.ray_certify.specs.Scenes.{GoesOn, IsWhole, ray_seen, rays_in, scene_rays, seen_in};
ghost use Rattle.ray_certify.specs.Verified.{IsCertified, IsCertifiedBy, IsVerdict, NameAnswers};
ghost use Rattle.ray_certify.specs.Verified.{NamesAnswer, NamesAnswerBy};

use crate::scene::{Scene, scene_of};
use crate::seen::{Seen, supports};
use crate::verdict::Verdict;
use crate::way::Way;
use ray_cert::{CertFault, ReadCert, read_cert};
use ray_cmd::Recording;
use ray_exec::{Gate, RunFault, Scripts, run_command, traces_can_begin};
use ray_geom::Ray;
use ray_inputs::Line;
use ray_memory::{State, ray_at};
use ray_query::Client;
use ray_ready::{accepted_have_scripts, kept_are_accepted};
use std::alloc::{AllocError as NoMemory, Global};
use std::thread::Threads;

/// Runs a recording in recording order, and tells whether lines certify the rays of its traces,
/// each the ray with its number: whether it is the spelling, with the trace's command and the ray's
/// number in it, of a certificate that supports its hit. Then that hit is what testing every
/// primitive commits. Lines beyond the last ray are not looked at, and a ray without a line isn't
/// certified. All commands keep the rules V1 to V24 and V28 to V31. (Own.)
///
/// # Errors
///
/// The refusal of the first command that breaks a data rule, exactly where there is one; or want of
/// memory.
pub fn verify<R: Threads + Sync, G: Gate + Sync>(
    rt: &R,
    alloc: Global,
    rec: &Recording,
    lines: &[Line],
    gate: &G,
) -> Result<Verdict, RunFault>
    requires rules { KeepStaticRules rec.now (length rec.now) }
    ensures verdict { RunsWith (recorded rec.now)
        (IsVerdict (rays_below (recorded rec.now) (length rec.now)) lines.now) result }

    // What is certified is what testing every primitive commits.
    ensures law { IfOk result (λ verdict. verdict ≡ Certified
        → NameAnswers (rays_below (recorded rec.now) (length rec.now)) lines.now) }
{
    traces_can_begin(rec);
    kept_are_accepted(rec);
    accepted_have_scripts();
    let scripts = Scripts::new(gate);
    let mut state = State::new(alloc);
    let mut text = Vec::new(alloc);
    let mut checked = Checked {
        next: 0,
        verdict: Verdict::Certified,
    };
    for command in 0..rec.len() {
        match verify_command(alloc, &state, rec, command, lines, checked) {
            Ok(now) => checked = now,
            Err(_) => return Err(RunFault::NoMemory),
        }
        if let Err(fault) = run_command(rt, alloc, &mut state, rec, command, &scripts, &mut text) {
            return Err(fault);
        }
    }
    Ok(checked.verdict)
}

// How far lines were looked at while all were certified, and what they are so far.
#[derive(Clone, Copy, Debug)]
pub struct Checked {
    pub next: usize,
    pub verdict: Verdict,
}

// Goes on with the lines of the rays of a command, where it is a trace.
fn verify_command(
    alloc: Global,
    state: &State,
    rec: &Recording,
    command: u32,
    lines: &[Line],
    checked: Checked,
) -> Result<Checked, NoMemory>
    requires within { command < length rec.now }
    requires can { CanBegin (memory_of state.now) (command_at rec.now command) }
    requires script { HasScript (command_at rec.now command) }
    ensures { IfOk result (GoesOn lines.now
        (rays_in (memory_of state.now) command (command_at rec.now command)) checked) }
{
    match checked.verdict {
        Verdict::Uncertified { .. } => Ok(checked),
        Verdict::Certified => match scene_of(alloc, state, rec, command)? {
            None => Ok(checked),
            Some(scene) => verify_scene(alloc, &scene, lines, checked),
        },
    }
}

// Goes on with the lines of the rays of a trace.
fn verify_scene(
    alloc: Global,
    scene: &Scene<'_>,
    lines: &[Line],
    mut checked: Checked,
) -> Result<Checked, NoMemory>
    requires whole { IfSome scene.now.seen IsWhole }
    requires flags_agree { ¬ AsksBoth scene.now.way.flags }
    ensures { IfOk result (GoesOn lines.now (scene_rays scene.now scene.now.count) checked) }
{
    for number in 0..scene.count {
        checked = verify_ray(
            alloc,
            &scene.seen,
            scene.way,
            number,
            &scene.script,
            lines,
            checked,
        )?;
    }
    Ok(checked)
}

// Goes on with the line of a ray.
fn verify_ray<C: Client>(
    alloc: Global,
    seen: &Option<Seen<'_>>,
    way: Way,
    number: u32,
    client: &C,
    lines: &[Line],
    checked: Checked,
) -> Result<Checked, NoMemory>
    requires whole { IfSome seen.now IsWhole }
    requires flags_agree { ¬ AsksBoth way.flags }
    ensures { IfOk result (GoesOn lines.now
        (traced_ray way (C.meaning client.now) (seen_in seen.now) number ∷ []) checked) }
{
    match checked.verdict {
        Verdict::Uncertified { .. } => Ok(checked),
        Verdict::Certified => {
            let next = checked.next;
            if is_next_certified(alloc, seen, way, number, client, lines, next)? {
                Ok(Checked {
                    next: next + 1,
                    verdict: Verdict::Certified,
                })
            } else {
                Ok(Checked {
                    next,
                    verdict: Verdict::Uncertified {
                        command: way.command,
                        ray: number,
                    },
                })
            }
        }
    }
}

// Whether there is a line of a number, and it certifies a ray.
fn is_next_certified<C: Client>(
    alloc: Global,
    seen: &Option<Seen<'_>>,
    way: Way,
    number: u32,
    client: &C,
    lines: &[Line],
    next: usize,
) -> Result<bool, NoMemory>
    requires whole { IfSome seen.now IsWhole }
    requires flags_agree { ¬ AsksBoth way.flags }
    ensures value { IfOk result (λ is. IsTrue is ↔ IsSomeAnd (slice_get lines.now next)
        (IsCertified (traced_ray way (C.meaning client.now) (seen_in seen.now) number))) }
    ensures law { IfOk result (λ is. IsTrue is → IsSomeAnd (slice_get lines.now next)
        (NamesAnswer (traced_ray way (C.meaning client.now) (seen_in seen.now) number))) }
    ensures within { IfOk result (λ is. IsTrue is → next < length lines.now) }
{
    match line_at(lines, next) {
        Some(line) => is_certified(alloc, seen, way, number, client, line),
        None => Ok(false),
    }
}

// The line of a number.
fn line_at(lines: &[Line], number: usize) -> Option<&Line>
    ensures value { option_copied result ≡ slice_get lines.now number }
    ensures within { IfSome (option_copied result) (λ line. number < length lines.now) }
{
    lines.get(number)
}

// Whether a line certifies a ray, if that is there.
fn is_certified<C: Client>(
    alloc: Global,
    seen: &Option<Seen<'_>>,
    way: Way,
    number: u32,
    client: &C,
    line: &Line,
) -> Result<bool, NoMemory>
    requires whole { IfSome seen.now IsWhole }
    requires flags_agree { ¬ AsksBoth way.flags }
    ensures value { IfOk result (λ is. IsTrue is ↔ IsCertified
        (traced_ray way (C.meaning client.now) (seen_in seen.now) number) line.now) }
    ensures law { IfOk result (λ is. IsTrue is → NamesAnswer
        (traced_ray way (C.meaning client.now) (seen_in seen.now) number) line.now) }
{
    match seen {
        None => Ok(false),
        Some(seen) => match ray_at(&seen.inputs.rays, number) {
            None => Ok(false),
            Some(ray) => certifies(alloc, seen, way, &ray, number, client, line),
        },
    }
}

// Whether a line certifies a ray that is there.
fn certifies<C: Client>(
    alloc: Global,
    seen: &Seen<'_>,
    way: Way,
    ray: &Ray,
    number: u32,
    client: &C,
    line: &Line,
) -> Result<bool, NoMemory>
    requires whole { IsWhole seen.now }
    requires flags_agree { ¬ AsksBoth way.flags }
    ensures value { IfOk result (λ is. IsTrue is ↔ IsCertifiedBy
        (traced_ray way (C.meaning client.now) (seen_in (Some seen.now)) number)
        (ray_seen seen.now ray.now) line.now) }
    ensures law { IfOk result (λ is. IsTrue is → NamesAnswerBy
        (traced_ray way (C.meaning client.now) (seen_in (Some seen.now)) number)
        (ray_seen seen.now ray.now) line.now) }
{
    match read_cert(alloc, line.as_str()) {
        Ok(read) => {
            if is_of(&read, way.command, number) {
                supports(alloc, seen, way, ray, number, client, &read.cert)
            } else {
                Ok(false)
            }
        }
        Err(CertFault::BadLine) => Ok(false),
        Err(CertFault::NoMemory) => Err(NoMemory),
    }
}

// Whether what was read is of this ray of this command.
fn is_of(read: &ReadCert, command: u32, ray: u32) -> bool
    ensures { IsTrue result ↔ ((read.now.command ≡ command) × (read.now.ray ≡ ray)) }
{
    read.command == command && read.ray == ray
}
