// The certificates of the rays of a run's traces.
ghost use Rattle.std.specs.Prelude.{◌≡◌, ◌++◌, ◌<◌, ◌∷◌, [], IfSome, OnOk, Some, codes, length};
ghost use Rattle.ray_action.specs.Clients.{HasScript};
ghost use Rattle.ray_action.specs.Pieces.{command_at};
ghost use Rattle.ray_exec.specs.Laws.{CanBegin};
ghost use Rattle.ray_memory.specs.State.{memory_of};
ghost use Rattle.ray_flags.specs.Admission.{AsksBoth};
ghost use Rattle.ray_permitted.specs.Job.{recorded};
ghost use Rattle.ray_ready.specs.Accepted.{KeepStaticRules};
ghost use Rattle.ray_certify.specs.Certified.{AreMade, RunsWith};
ghost use Rattle.ray_certify.specs.Rays.{first_rays, rays_below, traced_ray};
ghost use Rattle.ray_certify.specs.Scenes.{Adds, IsWhole, rays_in, scene_rays, seen_in};

use crate::scene::{Scene, scene_of};
use crate::seen::{Seen, certificate_line};
use crate::way::Way;
use ray_cmd::Recording;
use ray_exec::{Gate, RunFault, Scripts, run_command, traces_can_begin};
use ray_memory::{State, ray_at};
use ray_query::Client;
use ray_ready::{accepted_have_scripts, kept_are_accepted};
use ray_walk::Turns;
use std::alloc::{AllocError as NoMemory, Global};
use std::thread::Threads;

/// Runs a recording in recording order, and gives the certificates of the rays of its traces: a
/// line for each ray of each trace, `cert I K HIT |` and the strings of digits, in recording order.
/// A ray's certificate names what testing every primitive commits, and a digit is 1 exactly where
/// its node is met up to the committed distance. All commands keep the rules V1 to V24 and V28 to
/// V31. (Own.)
///
/// # Errors
///
/// The refusal of the first command that breaks a data rule, exactly where there is one; or want of
/// memory.
pub fn certify<R: Threads + Sync, G: Gate + Sync>(
    rt: &R,
    alloc: Global,
    rec: &Recording,
    gate: &G,
) -> Result<Vec<u8>, RunFault>
    requires rules { KeepStaticRules rec.now (length rec.now) }
    ensures { RunsWith (recorded rec.now) (λ lines.
        AreMade (rays_below (recorded rec.now) (length rec.now)) lines.items) result }
{
    traces_can_begin(rec);
    kept_are_accepted(rec);
    accepted_have_scripts();
    let scripts = Scripts::new(gate);
    let mut state = State::new(alloc);
    let mut text = Vec::new(alloc);
    let mut lines = Vec::new(alloc);
    for command in 0..rec.len() {
        if let Err(_) = certify_command(alloc, &state, rec, command, &mut lines) {
            return Err(RunFault::NoMemory);
        }
        if let Err(fault) = run_command(rt, alloc, &mut state, rec, command, &scripts, &mut text) {
            return Err(fault);
        }
    }
    Ok(lines)
}

// Adds the lines of the rays of a command, where it is a trace.
fn certify_command(
    alloc: Global,
    state: &State,
    rec: &Recording,
    command: u32,
    lines: &mut Vec<u8>,
) -> Result<(), NoMemory>
    requires within { command < length rec.now }
    requires can { CanBegin (memory_of state.now) (command_at rec.now command) }
    requires script { HasScript (command_at rec.now command) }
    ensures { OnOk result (Adds
        (rays_in (memory_of state.now) command (command_at rec.now command))
        lines.old.items lines.new.items) }
{
    match scene_of(alloc, state, rec, command)? {
        None => Ok(()),
        Some(scene) => certify_scene(alloc, &scene, lines),
    }
}

// Adds the lines of the rays of a trace.
fn certify_scene(alloc: Global, scene: &Scene<'_>, lines: &mut Vec<u8>) -> Result<(), NoMemory>
    requires whole { IfSome scene.now.seen IsWhole }
    requires flags_agree { ¬ AsksBoth scene.now.way.flags }
    ensures { OnOk result (Adds (scene_rays scene.now scene.now.count)
        lines.old.items lines.new.items) }
{
    match &scene.seen {
        None => Ok(()),
        Some(seen) => certify_rays(alloc, seen, scene.way, scene.count, &scene.script, lines),
    }
}

// Adds the lines of so many rays.
fn certify_rays<C: Client>(
    alloc: Global,
    seen: &Seen<'_>,
    way: Way,
    count: u32,
    client: &C,
    lines: &mut Vec<u8>,
) -> Result<(), NoMemory>
    requires whole { IsWhole seen.now }
    requires flags_agree { ¬ AsksBoth way.flags }
    ensures { OnOk result (Adds (first_rays way (C.meaning client.now) (seen_in (Some seen.now))
        count) lines.old.items lines.new.items) }
{
    let mut turns = Turns::new(alloc);
    for number in 0..count {
        certify_ray(alloc, seen, way, number, client, &mut turns, lines)?;
    }
    Ok(())
}

// Adds the line of a ray, where it is within the limits.
fn certify_ray<C: Client>(
    alloc: Global,
    seen: &Seen<'_>,
    way: Way,
    number: u32,
    client: &C,
    turns: &mut Turns,
    lines: &mut Vec<u8>,
) -> Result<(), NoMemory>
    requires whole { IsWhole seen.now }
    requires flags_agree { ¬ AsksBoth way.flags }
    ensures { OnOk result (Adds
        (traced_ray way (C.meaning client.now) (seen_in (Some seen.now)) number ∷ [])
        lines.old.items lines.new.items) }
{
    match ray_at(&seen.inputs.rays, number) {
        None => Ok(()),
        Some(ray) => {
            let line = certificate_line(alloc, seen, way, &ray, number, client, turns)?;
            add_line(lines, line.as_slice())
        }
    }
}

// Adds a line and its end.
fn add_line(lines: &mut Vec<u8>, line: &[u8]) -> Result<(), NoMemory>
    ensures { OnOk result (lines.new.items ≡ lines.old.items ++ (line.now ++ codes "\n")) }
{
    lines.extend_from_slice(line)?;
    lines.push(b'\n')?;
    Ok(())
}
