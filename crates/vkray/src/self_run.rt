// The run of a made-up scene, and what is counted of it.
ghost use Rattle.ray_scene.specs.Grid.{IsScene};
ghost use Rattle.vkray.specs.declared.request.Request.TheVariants.{RunSelf};
ghost use Rattle.vkray.specs.Answer.{answer_of, ran};
ghost use Rattle.vkray.specs.Endings.{AreWorkers, Ends};
ghost use Rattle.vkray.specs.Scenes.{text_of_scene};
ghost use Rattle.vkray.specs.Tasks.{recorded_task};

use crate::counting::{counted_line, quiet_length};
use crate::executing::read_whole;
use crate::request::{Scene, SelfRun};
use crate::running::{ended, run_until};
use crate::stop::Stop;
use ray_check::check_rules;
use ray_cmd::Recording;
use ray_exec::Gate;
use ray_memory::State;
use ray_permitted::unrefused_break_no_rule;
use ray_scene::gen_text;
use std::alloc::Global;
use std::thread::Threads;

// The counts of what the run of a made-up scene commits: its recording is read and run.
#[tactic(auto, unfolding(crate::specs::Answer::answer_of))]
pub(crate) fn run_self<R: Threads + Sync, G: Gate + Sync>(
    rt: &R,
    alloc: Global,
    asked: SelfRun,
    gate: &G,
) -> Result<Vec<u8>, Stop>
    requires scene { IsScene asked.scene.side asked.scene.layers asked.scene.rays }
    requires workers { AreWorkers asked.workers }
    ensures { Ends (answer_of (RunSelf asked) (text_of_scene asked.scene)) result }
{
    let Scene { side, layers, rays } = asked.scene;
    match gen_text(alloc, side, layers, rays) {
        Ok(text) => match read_whole(alloc, text) {
            Ok(recording) => count(rt, alloc, &recording, asked, gate),
            Err(fault) => Err(Stop::from(fault)),
        },
        Err(_) => Err(Stop::NoMemory),
    }
}

// Runs a recording, and counts the records that its last command reads of what the run leaves. That
// command itself, which would print them, isn't run: it changes nothing.
fn count<R: Threads + Sync, G: Gate + Sync>(
    rt: &R,
    alloc: Global,
    recording: &Recording,
    asked: SelfRun,
    gate: &G,
) -> Result<Vec<u8>, Stop>
    requires workers { AreWorkers asked.workers }
    ensures { Ends (ran (RunSelf asked) (recorded_task recording.now)) result }
{
    unrefused_break_no_rule(recording);
    let mut state = State::new(alloc);
    match check_rules(alloc, recording) {
        Ok(Some(refusal)) => {
            let until = refusal.command;
            let run = run_until(rt, alloc, &mut state, recording, until, asked.workers, gate);
            ended(run, Some(refusal))
        }
        Ok(None) => {
            let until = quiet_length(recording);
            match run_until(rt, alloc, &mut state, recording, until, asked.workers, gate) {
                Ok(_) => counted_line(alloc, asked.scene.rays, &state, recording),
                Err(fault) => Err(Stop::from(fault)),
            }
        }
        Err(_) => Err(Stop::NoMemory),
    }
}
