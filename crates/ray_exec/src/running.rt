ghost use Rattle.std.specs.Prelude.{◌≡◌, ◌≤◌, List, length, IfOk, OnOk};
ghost use Rattle.ray_schedule.specs.Events.{Event};
ghost use Rattle.ray_schedule.specs.Laws.{MayRun};
ghost use Rattle.ray_action.specs.Memory.{Location, nothing_live};
ghost use Rattle.ray_memory.specs.State.{memory_of};
ghost use Rattle.ray_permitted.specs.Along.{memory_below, run_along, run_below};
ghost use Rattle.ray_permitted.specs.Job.{on_one_queue, recorded};
ghost use Rattle.ray_permitted.specs.Separates.{NumbersSeparate};
ghost use Rattle.ray_permitted.specs.Work.{work_of};
ghost use Rattle.ray_exec.specs.Runs.{IsRun};
ghost use Rattle.ray_exec.specs.Steps.{CanEach};
ghost use Rattle.ray_exec.specs.Waves.{AreLongest, wave_at};
ghost use Rattle.ray_ready.specs.Accepted.{KeepStaticRules, refused_from};
ghost use Rattle.ray_rules.specs.Order.{barriers};
ghost use Rattle.ray_rules.specs.Verdict.{rule_refusal};
ghost use Rattle.ray_sync.specs.Rows.{IsOrderOf};

use crate::fetcher::Fetcher;
use crate::gate::Gate;
use crate::in_order::run_in_order;
use crate::in_waves::run_in_waves;
use crate::ranks::ranks_of;
use crate::run_fault::RunFault;
use crate::scripts::Scripts;
use ray_cmd::Recording;
use ray_memory::State;
use ray_permitted::unrefused_break_no_rule;
use ray_ready::kept_are_accepted;
use ray_sync::Order;
use std::alloc::{AllocError as NoMemory, Global};
use std::thread::Threads;

/// Runs the commands below `until`, of which none is refused by a rule V1 to V32. Gives their text,
/// or the refusal of the first that breaks a data rule. It is that of every order of their pieces
/// that the barriers and waits permit, which `order` is. `workers` is from 1 to 64, and says how
/// many may fetch at once: one goes in recording order, on the calling thread, and several in
/// waves, all commands of one wave number together. Where a thread can't be started the calling
/// one does its work. After a text the state holds the memory that the run leaves; after a fault
/// what some of the commands wrote. (Own; after "Synchronization and Cache Control" in Vulkan.)
pub fn run_waves<R: Threads + Sync, G: Gate + Sync>(
    rt: &R,
    alloc: Global,
    state: &mut State,
    rec: &Recording,
    order: &Order,
    until: u32,
    workers: u32,
    gate: &G,
) -> Result<Vec<u8>, RunFault>
    requires new { (l : Location) → memory_of state.old l ≡ nothing_live l }
    requires within { until ≤ length rec.now }
    requires rules { until
        ≤ refused_from (length rec.now) (rule_refusal (barriers rec.now) rec.now) }
    requires order { IsOrderOf rec.now order.now }
    requires ordered { until ≤ length order.now }
    requires workers { (1 ≤ workers) × (workers ≤ 64) }
    ensures run { IsRun (run_below (recorded rec.now) until) result }
    ensures every_order { (es : List Event) → MayRun (work_of (recorded rec.now) until) es
        → IsRun (run_along (recorded rec.now) until es) result }
    ensures left { OnOk result ((l : Location) → memory_of state.new l
        ≡ memory_below (recorded rec.now) until l) }
{
    unrefused_break_no_rule(rec);
    let scripts = Scripts::new(gate);
    match waves_in(alloc, rec, order, until) {
        Ok(waves) => run_numbered(
            rt,
            alloc,
            state,
            rec,
            waves.as_slice(),
            until,
            workers,
            &scripts,
        ),
        Err(_) => Err(RunFault::NoMemory),
    }
}

// The wave numbers of the commands below `until` in an order.
fn waves_in(alloc: Global, rec: &Recording, order: &Order, until: u32) -> Result<Vec<u32>, NoMemory>
    requires order { IsOrderOf rec.now order.now }
    requires ordered { until ≤ length order.now }
    ensures { IfOk result (λ v. AreLongest rec.now until v.items) }
{
    let mut waves = Vec::new(alloc);
    for command in 0..until {
        waves.push(order.wave(command))?;
    }
    Ok(waves)
}

/// Runs the commands below `until` in waves of these numbers, all commands of one number together.
/// The numbers may be any that rise along conflicts, from a command of the host to each later one,
/// and from a device command to what the host does behind a later `wait`. The commands keep the
/// rules V1 to V24 and V28 to V31. Gives the text of recording order, or the refusal of the first
/// command that breaks a data rule. `workers` is from 1 to 64: one goes in recording order and reads
/// no number. After a text the state holds the memory that the run leaves; after a fault what some
/// of the commands wrote. (Own.)
pub fn run_numbered<R: Threads + Sync, F: Fetcher + Sync>(
    rt: &R,
    alloc: Global,
    state: &mut State,
    rec: &Recording,
    waves: &[u32],
    until: u32,
    workers: u32,
    fetcher: &F,
) -> Result<Vec<u8>, RunFault>
    requires new { (l : Location) → memory_of state.old l ≡ nothing_live l }
    requires within { until ≤ length rec.now }
    requires rules { KeepStaticRules rec.now until }
    requires can { CanEach (F.can_fetch fetcher.now) rec.now until }
    requires numbered { until ≤ length waves.now }
    requires separate { NumbersSeparate rec.now until (wave_at waves.now) }
    requires workers { (1 ≤ workers) × (workers ≤ 64) }
    ensures run { IsRun (run_below (on_one_queue rec.now (F.clients fetcher.now rec.now)) until)
        result }
    ensures left { OnOk result ((l : Location) → memory_of state.new l
        ≡ memory_below (on_one_queue rec.now (F.clients fetcher.now rec.now)) until l) }
{
    if workers == 1 {
        return run_in_order(rt, alloc, state, rec, until, fetcher);
    }
    kept_are_accepted(rec);
    match ranks_of(alloc, waves, until) {
        Ok(ranks) => run_in_waves(
            rt,
            alloc,
            state,
            rec,
            ranks.as_slice(),
            until,
            workers,
            fetcher,
        ),
        Err(_) => Err(RunFault::NoMemory),
    }
}
