// The run of a task, up to the command that the rules on commands alone refuse.
ghost use Rattle.std.specs.Prelude.{◌≡◌, ◌≤◌, IfOk, OnOk, length};
ghost use Rattle.ray_action.specs.Memory.{Location, nothing_live};
ghost use Rattle.ray_action.specs.Running.{Run as ARun};
ghost use Rattle.ray_memory.specs.State.{memory_of};
ghost use Rattle.ray_exec.specs.Runs.{IsRun};
ghost use Rattle.ray_permitted.specs.Along.{memory_below, run_below};
ghost use Rattle.ray_permitted.specs.Job.{recorded};
ghost use Rattle.ray_ready.specs.Accepted.{refused_from};
ghost use Rattle.ray_rules.specs.Order.{barriers};
ghost use Rattle.ray_rules.specs.Verdict.{rule_refusal};
ghost use Rattle.ray_check.specs.Queues.{queue_rule_refusal};
ghost use Rattle.ray_queues.specs.Rounds.{AreRounds, RoundsRise};
ghost use Rattle.vkray.specs.declared.asked.Asked.TheVariants.{Groups, Queues, Run};
ghost use Rattle.vkray.specs.declared.request.Request.TheVariants.{Input};
ghost use Rattle.vkray.specs.Answer.{ran};
ghost use Rattle.vkray.specs.Endings.{AreWorkers, Ends, ending_with};
ghost use Rattle.vkray.specs.Tasks.{queued_task, recorded_task, tabled_task};

use crate::by_tables::ByTables;
use crate::input_fault::InputFault;
use crate::stop::Stop;
use ray_check::{check_queue_rules, check_rules};
use ray_cmd::{Recording, Refusal};
use ray_exec::{Gate, RunFault, Scripts, run_in_order, run_numbered, run_waves};
use ray_inputs::TabledRecording;
use ray_memory::State;
use ray_permitted::unrefused_break_no_rule;
use ray_queues::queue_waves;
use ray_submits::QueueRecording;
use ray_sync::order_of;
use std::alloc::{AllocError as NoMemory, Global};
use std::thread::Threads;

// Runs a recording.
pub(crate) fn run<R: Threads + Sync, G: Gate + Sync>(
    rt: &R,
    alloc: Global,
    recording: &Recording,
    workers: u32,
    gate: &G,
) -> Result<Vec<u8>, Stop>
    requires workers { AreWorkers workers }
    ensures { Ends (ran (Input (Run workers)) (recorded_task recording.now)) result }
{
    match check_rules(alloc, recording) {
        Ok(refusal) => {
            let mut state = State::new(alloc);
            let until = end_of(recording, refusal);
            let run = run_until(rt, alloc, &mut state, recording, until, workers, gate);
            ended(run, refusal)
        }
        Err(_) => Err(Stop::NoMemory),
    }
}

// Runs a recording with tables of hit groups, in recording order.
pub(crate) fn run_tabled<R: Threads + Sync, G: Gate + Sync>(
    rt: &R,
    alloc: Global,
    tabled: &TabledRecording,
    gate: &G,
) -> Result<Vec<u8>, Stop>
    ensures { Ends (ran (Input Groups) (tabled_task tabled.now)) result }
{
    let recording = tabled.recording();
    match check_rules(alloc, recording) {
        Ok(refusal) => {
            unrefused_break_no_rule(recording);
            let mut state = State::new(alloc);
            let until = end_of(recording, refusal);
            let fetcher = ByTables {
                tables: tabled.tables(),
                gate,
            };
            let run = run_in_order(rt, alloc, &mut state, recording, until, &fetcher);
            ended(run, refusal)
        }
        Err(_) => Err(Stop::NoMemory),
    }
}

// Runs a recording that is submitted to queues.
pub(crate) fn run_queued<R: Threads + Sync, G: Gate + Sync>(
    rt: &R,
    alloc: Global,
    queued: &QueueRecording,
    workers: u32,
    gate: &G,
) -> Result<Vec<u8>, Stop>
    requires workers { AreWorkers workers }
    ensures { Ends (ran (Input (Queues workers)) (queued_task queued.now)) result }
{
    match check_queue_rules(alloc, queued) {
        Ok(refusal) => {
            let mut state = State::new(alloc);
            let until = end_of(queued.recording(), refusal);
            let run = run_queued_until(rt, alloc, &mut state, queued, until, workers, gate);
            ended(run, refusal)
        }
        Err(_) => Err(Stop::NoMemory),
    }
}

// How many commands of a recording are run: those below one that is refused.
pub(crate) fn end_of(recording: &Recording, refusal: Option<Refusal>) -> u32
    ensures { result ≡ refused_from (length recording.now) refusal }
{
    match refusal {
        Some(refusal) => refusal.command,
        None => recording.len(),
    }
}

// What the run of the commands below a refused one comes to.
pub(crate) fn ended(
    run: Result<Vec<u8>, RunFault>,
    refusal: Option<Refusal>,
) -> Result<Vec<u8>, Stop>
    ensures { (is : ARun) → IsRun is run → Ends (ending_with is refusal) result }
{
    match run {
        Ok(text) => match refusal {
            Some(refusal) => Err(Stop::Input(InputFault::Refused(refusal))),
            None => Ok(text),
        },
        Err(fault) => Err(Stop::from(fault)),
    }
}

// Runs the commands below a number: one worker in recording order, and several in the order that
// barriers and waits give.
pub(crate) fn run_until<R: Threads + Sync, G: Gate + Sync>(
    rt: &R,
    alloc: Global,
    state: &mut State,
    recording: &Recording,
    until: u32,
    workers: u32,
    gate: &G,
) -> Result<Vec<u8>, RunFault>
    requires new { (l : Location) → memory_of state.old l ≡ nothing_live l }
    requires within { until ≤ length recording.now }
    requires rules { until ≤ refused_from (length recording.now)
        (rule_refusal (barriers recording.now) recording.now) }
    requires workers { AreWorkers workers }
    ensures run { IsRun (run_below (recorded recording.now) until) result }
    ensures left { OnOk result ((l : Location) → memory_of state.new l
        ≡ memory_below (recorded recording.now) until l) }
{
    if workers == 1 {
        unrefused_break_no_rule(recording);
        return run_in_order(rt, alloc, state, recording, until, &Scripts::new(gate));
    }
    match order_of(alloc, recording, until) {
        Ok(order) => run_waves(rt, alloc, state, recording, &order, until, workers, gate),
        Err(_) => Err(RunFault::NoMemory),
    }
}

// The same of a recording that is submitted to queues, by several workers in the order over queues.
fn run_queued_until<R: Threads + Sync, G: Gate + Sync>(
    rt: &R,
    alloc: Global,
    state: &mut State,
    queued: &QueueRecording,
    until: u32,
    workers: u32,
    gate: &G,
) -> Result<Vec<u8>, RunFault>
    requires new { (l : Location) → memory_of state.old l ≡ nothing_live l }
    requires within { until ≤ length queued.now.commands }
    requires rules { until ≤ refused_from (length queued.now.commands)
        (queue_rule_refusal queued.now) }
    requires workers { AreWorkers workers }
    ensures { IsRun (run_below (recorded queued.now.commands) until) result }
{
    let recording = queued.recording();
    let scripts = Scripts::new(gate);
    unrefused_break_no_rule(recording);
    if workers == 1 {
        return run_in_order(rt, alloc, state, recording, until, &scripts);
    }
    match rounds_of(alloc, queued, until) {
        Ok(rounds) => {
            let numbers = rounds.as_slice();
            run_numbered(
                rt, alloc, state, recording, numbers, until, workers, &scripts,
            )
        }
        Err(_) => Err(RunFault::NoMemory),
    }
}

// The rounds of its commands below a number, in the order over queues.
fn rounds_of(alloc: Global, queued: &QueueRecording, until: u32) -> Result<Vec<u32>, NoMemory>
    requires { until ≤ length queued.now.commands }
    ensures are { IfOk result (λ rounds. AreRounds queued.now until rounds.items) }
    ensures rise { IfOk result (λ rounds. RoundsRise queued.now until rounds.items) }
{
    let order = queue_waves(alloc, queued, until)?;
    order.rounds(alloc, queued, until)
}
