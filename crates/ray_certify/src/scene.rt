// A trace as it stands between the commands of a run.
ghost use Rattle.std.specs.Prelude.{◌≡◌, ◌<◌, IfOk, IfSome, None, length, option_map};
ghost use Rattle.ray_action.specs.Clients.{HasScript};
ghost use Rattle.ray_action.specs.Pieces.{command_at};
ghost use Rattle.ray_exec.specs.Laws.{CanBegin};
ghost use Rattle.ray_memory.specs.State.{memory_of};
ghost use Rattle.ray_memory.specs.Tracing.{lent, seen_of};
ghost use Rattle.ray_script.specs.Scripts.{refused_at};
ghost use Rattle.ray_candidates.specs.Standing.{AreStanding, structures_in};
ghost use Rattle.ray_top.specs.Trees.{without_tree};
ghost use Rattle.ray_certify.specs.Scenes.{IsSceneOf, IsWhole, seen_in};

use crate::seen::Seen;
use crate::way::Way;
use ray_cert::Stated;
use ray_cmd::{Command, Recording};
use ray_geom::Steps;
use ray_memory::{State, TraceInputs};
use ray_script::{BadScript, RawRule, Script, script_of};
use std::alloc::{AllocError as NoMemory, Global};
use std::marker::Brand;

// A trace: how its rays are traced, how many there are, who decides on their candidates, and what
// it reads, where that is there.
#[derive(Drop)]
pub struct Scene<'s> {
    pub way: Way,
    pub count: u32,
    pub script: Script,
    pub seen: Option<Seen<'s>>,
}

// The trace that a command is, in the memory as it is before it. None where it has no rays.
pub(crate) fn scene_of<'s>(
    alloc: Global,
    state: &'s State,
    rec: &Recording,
    command: u32,
) -> Result<Option<Scene<'s>>, NoMemory>
    requires within { command < length rec.now }
    requires can { CanBegin (memory_of state.now) (command_at rec.now command) }
    requires script { HasScript (command_at rec.now command) }
    ensures { IfOk result
        (IsSceneOf (memory_of state.now) command (command_at rec.now command)) }
{
    let inputs = state.trace_inputs(rec, command);
    scene_with(alloc, state, rec.command(command), command, inputs)
}

// The same of a command with a number, and what it reads where it is a trace.
fn scene_with<'s>(
    alloc: Global,
    _state: &'s State,
    command: &Command,
    number: u32,
    inputs: Option<TraceInputs<'s>>,
) -> Result<Option<Scene<'s>>, NoMemory>
    requires can { CanBegin (memory_of _state.now) command.now }
    requires script { HasScript command.now }
    requires inputs { option_map lent inputs ≡ seen_of (memory_of _state.now) command.now }
    ensures { IfOk result (IsSceneOf (memory_of _state.now) number command.now) }
{
    match command {
        Command::Trace {
            count,
            flags,
            mask,
            script,
            ..
        } => {
            if *count == 0 {
                return Ok(None);
            }
            let way = Way {
                command: number,
                flags: *flags,
                mask: (*mask % 256) as u8,
            };
            let script = script_of_rules(alloc, script.as_slice())?;
            let seen = seen_of(alloc, inputs)?;
            Ok(Some(Scene {
                way,
                count: *count,
                script,
                seen,
            }))
        }
        _ => Ok(None),
    }
}

// The script of rules that are one.
fn script_of_rules(alloc: Global, rules: &[RawRule]) -> Result<Script, NoMemory>
    requires { refused_at rules.now ≡ None }
    ensures { IfOk result (λ script. script ≡ rules.now) }
{
    match script_of(alloc, rules) {
        Ok(script) => Ok(script),
        Err(BadScript::NoMemory) => Err(NoMemory),
        Err(BadScript::At(_)) => unreachable!("the rules are a script"),
    }
}

// What is read, with the stated trees of its structures.
fn seen_of(alloc: Global, inputs: Option<TraceInputs<'_>>) -> Result<Option<Seen<'_>>, NoMemory>
    requires { IfSome inputs (λ t. AreStanding (without_tree t.top.now)
        (structures_in t.bottoms.now)) }
    ensures same { IfOk result (λ seen. seen_in seen ≡ option_map lent inputs.entry) }
    ensures whole { IfOk result (λ seen. IfSome seen IsWhole) }
{
    match inputs {
        None => Ok(None),
        Some(inputs) => Ok(Some(with_trees(alloc, inputs)?)),
    }
}

// The same of what is there.
fn with_trees<'s>(alloc: Global, inputs: TraceInputs<'s>) -> Result<Seen<'s>, NoMemory>
    requires { AreStanding (without_tree inputs.top.now) (structures_in inputs.bottoms.now) }
    ensures same { IfOk result (λ seen. seen.inputs ≡ inputs.entry) }
    ensures whole { IfOk result IsWhole }
{
    let mut steps = Steps::<Brand>::zero();
    let trees = Stated::of(alloc, inputs.top, inputs.bottoms, &mut steps)?;
    Ok(Seen { inputs, trees })
}
