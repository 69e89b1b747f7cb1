ghost use Rattle.std.specs.Prelude.{◌≡◌, ◌<◌, ◌≤◌, ◌+◌, length, IfOk, OnOk};
ghost use Rattle.ray_action.specs.Memory.{Location, nothing_live};
ghost use Rattle.ray_memory.specs.State.{memory_of};
ghost use Rattle.ray_permitted.specs.Along.{memory_below, run_below};
ghost use Rattle.ray_permitted.specs.Job.{on_one_queue};
ghost use Rattle.ray_ready.specs.Accepted.{refused_from};
ghost use Rattle.ray_exec.specs.Progress.{IsDone, least};
ghost use Rattle.ray_exec.specs.Runs.{IsRun};
ghost use Rattle.ray_exec.specs.Steps.{CanEach};
ghost use Rattle.ray_exec.specs.Waves.{AreRanked, AreWavesOf};

use crate::fetcher::Fetcher;
use crate::gathering::fetch_wave;
use crate::run_fault::RunFault;
use crate::settling::settle;
use crate::wave::{commands_of, pieces_below, waves_of};
use ray_cmd::{Recording, Refusal};
use ray_memory::State;
use std::alloc::{AllocError as NoMemory, Global};
use std::thread::Threads;

// Runs the commands below `until` in waves of these ranks: of each the pieces are fetched, by so many
// workers, and then stored. After a piece that breaks a data rule it goes on with those before it in
// recording order, and gives the refusal of the first.
pub(crate) fn run_in_waves<R: Threads + Sync, F: Fetcher + Sync>(
    rt: &R,
    alloc: Global,
    state: &mut State,
    rec: &Recording,
    ranks: &[u32],
    until: u32,
    workers: u32,
    fetcher: &F,
) -> Result<Vec<u8>, RunFault>
    requires new { (l : Location) → memory_of state.old l ≡ nothing_live l }
    requires run { AreRanked rec.now ranks.now until }
    requires can { CanEach (F.can_fetch fetcher.now) rec.now until }
    requires workers { workers ≤ 64 }
    ensures run { IsRun (run_below (on_one_queue rec.now (F.clients fetcher.now rec.now)) until)
        result }
    ensures left { OnOk result ((l : Location) → memory_of state.new l
        ≡ memory_below (on_one_queue rec.now (F.clients fetcher.now rec.now)) until l) }
{
    let Ok(waves) = waves_of(alloc, ranks, until) else {
        return Err(RunFault::NoMemory);
    };
    let plan = Plan {
        rec,
        ranks,
        until,
        waves: &waves,
        workers,
    };
    let mut text = Vec::new(alloc);
    let mut stop = None;
    for wave in 0..waves.len() {
        match run_wave(rt, alloc, state, &plan, wave, fetcher, stop, &mut text) {
            Ok(next) => stop = next,
            Err(_) => return Err(RunFault::NoMemory),
        }
    }
    match stop {
        Some(refusal) => Err(RunFault::Refused(refusal)),
        None => Ok(text),
    }
}

// What is run in waves: the commands of a recording below a bound, by their ranks, the commands of
// each wave, and by how many workers.
#[derive(Clone, Copy)]
struct Plan<'a> {
    rec: &'a Recording,
    ranks: &'a [u32],
    until: u32,
    waves: &'a Vec<Vec<u32>>,
    workers: u32,
}

// Runs a wave, up to a refusal: the first there is so far, in recording order.
fn run_wave<R: Threads + Sync, F: Fetcher + Sync>(
    rt: &R,
    alloc: Global,
    state: &mut State,
    plan: &Plan<'_>,
    wave: usize,
    fetcher: &F,
    stop: Option<Refusal>,
    text: &mut Vec<u8>,
) -> Result<Option<Refusal>, NoMemory>
    requires run { AreRanked plan.now.rec.now plan.now.ranks.now plan.now.until }
    requires can { CanEach (F.can_fetch fetcher.now) plan.now.rec.now plan.now.until }
    requires waves { AreWavesOf plan.now.ranks.now plan.now.until plan.now.until
        plan.now.waves.now.items }
    requires wave { wave < length plan.now.waves.now.items }
    requires workers { plan.now.workers ≤ 64 }
    requires done { let rec = plan.now.rec.now in
        IsDone (on_one_queue rec (F.clients fetcher.now rec)) plan.now.ranks.now plan.now.until wave
        (memory_of state.old) text.old.items stop }
    ensures { let rec = plan.now.rec.now in
        IfOk result (λ next. IsDone (on_one_queue rec (F.clients fetcher.now rec))
        plan.now.ranks.now plan.now.until (wave + 1) (memory_of state.new) text.new.items next) }
{
    let commands = commands_of(plan.waves, plan.ranks, plan.until, wave);
    let pieces = pieces_below(alloc, plan.rec, commands, bound_by(plan.until, stop))?;
    let outs = fetch_wave(
        rt,
        alloc,
        state,
        plan.rec,
        pieces.as_slice(),
        wave,
        plan.workers,
        fetcher,
    )?;
    let met = settle(state, plan.rec, fetcher, pieces.as_slice(), outs, text)?;
    Ok(least(met, stop))
}

// The refusal that a wave met, where it met one: it went up to an earlier one, so it is less.
fn least(met: Option<Refusal>, stop: Option<Refusal>) -> Option<Refusal>
    ensures { result ≡ least met stop }
{
    match met {
        Some(refusal) => Some(refusal),
        None => stop,
    }
}

// The number of the command of a refusal, and the number of all commands where there is none.
fn bound_by(until: u32, stop: Option<Refusal>) -> u32
    ensures { result ≡ refused_from until stop }
{
    match stop {
        Some(refusal) => refusal.command,
        None => until,
    }
}
