ghost use Rattle.std.specs.Prelude.{◌≡◌, ◌≤◌, ◌||◌, ℕ, Bool, IfOk, List, OnOk, Some, length, map, slice_get};
ghost use Rattle.std.specs.List.{list_any};
ghost use Rattle.ray_rules.specs.Verdict.{GoOn};
ghost use Rattle.ray_access.specs.Axis.{touched};
ghost use Rattle.ray_access.specs.Lists.{structures_traced};
ghost use Rattle.ray_cmd.specs.declared.command.Command.{Command as ACommand};
ghost use Rattle.ray_rules.specs.Hazards.{status_at};
ghost use Rattle.ray_rules.specs.Status.{Status as AStatus, after};
ghost use Rattle.ray_hazards.specs.Checks.{AreStarted, AreStartedTops, HasAll, HasStarts, IsPlacedAt};
ghost use Rattle.ray_hazards.specs.Lasts.{HaveStarts};

use crate::tops::may_change_structures;
use ray_access::{Touched, Touches, host_touches_of, rays_traced, structures_traced, touches_of};
use ray_cmd::{Command, Recording};
use ray_status::Status;
use std::alloc::{AllocError as NoMemory, Global};
use std::collections::BTreeSet;

/// The numbers at which what the first commands read and write begins. What a trace reads of
/// structures is looked at once for each top as long as structures stay as they are.
///
/// # Errors
///
/// For want of memory alone.
pub fn starts_of(alloc: Global, rec: &Recording, until: u32) -> Result<BTreeSet<u128>, NoMemory>
    requires until { until ≤ length rec.now }
    requires go_on { GoOn rec.now until }
    ensures { IfOk result (λ set. HaveStarts rec.now set.keys until) }
{
    let mut set = BTreeSet::new(alloc);
    let mut known = BTreeSet::new(alloc);
    let mut status = Status::new(alloc);
    for n in 0..until {
        let command = rec.command(n);
        add_command(alloc, &mut set, &mut known, rec, &status, command)?;
        pass_tops(alloc, &mut known, command);
        status.step(n, command)?;
    }
    Ok(set)
}

// Puts the numbers at which begins what a command touches where a status stands into a set, those
// of a top where it isn't known, and then it is.
fn add_command(
    alloc: Global,
    set: &mut BTreeSet<u128>,
    known: &mut BTreeSet<u32>,
    rec: &Recording,
    status: &Status,
    command: &Command,
) -> Result<(), NoMemory>
    ensures kept { OnOk result (HasAll set.old.keys set.new.keys) }
    ensures placed { OnOk result ((n : ℕ) → slice_get rec.now n ≡ Some command.now
        → status.now ≡ status_at rec.now n
        → AreStartedTops rec.now status.now set.old.keys known.old.keys
        → IsPlacedAt rec.now set.new.keys n) }
    ensures tops { OnOk result (AreStartedTops rec.now status.now set.old.keys known.old.keys
        → AreStartedTops rec.now status.now set.new.keys known.new.keys) }
{
    match command {
        Command::Trace {
            top,
            rays,
            count,
            hits,
            ..
        } => {
            add_top(alloc, set, known, rec, status, *top)?;
            let touches = rays_traced(alloc, status, *rays, *count, *hits)?;
            add_touches(set, &touches)?;
            Ok(())
        }
        _ => {
            let touches = touches_of(alloc, rec, status, command)?;
            let host = host_touches_of(alloc, status, command)?;
            add_touches(set, &touches)?;
            add_starts(set, host.as_slice())?;
            Ok(())
        }
    }
}

// Puts those of what a trace of a top reads of structures into a set, where the top isn't known.
fn add_top(
    alloc: Global,
    set: &mut BTreeSet<u128>,
    known: &mut BTreeSet<u32>,
    rec: &Recording,
    status: &Status,
    top: u32,
) -> Result<(), NoMemory>
    ensures kept { OnOk result (HasAll set.old.keys set.new.keys) }
    ensures started { OnOk result (AreStartedTops rec.now status.now set.old.keys known.old.keys
        → AreStarted set.new.keys
        (map (touched status.now) (structures_traced rec.now status.now top))) }
    ensures tops { OnOk result (AreStartedTops rec.now status.now set.old.keys known.old.keys
        → AreStartedTops rec.now status.now set.new.keys known.new.keys) }
{
    if known.contains(&top) {
        return Ok(());
    }
    let list = structures_traced(alloc, rec, status, top)?;
    add_starts(set, list.as_slice())?;
    known.insert(top)?;
    Ok(())
}

// Goes on past a command: no top is known where structures may change.
fn pass_tops(alloc: Global, known: &mut BTreeSet<u32>, command: &Command)
    ensures { (rec : List ACommand) (z : AStatus) (starts : List ℕ) (n : ℕ)
        → AreStartedTops rec z starts known.old.keys
        → AreStartedTops rec (after n command.now z) starts known.new.keys }
{
    if may_change_structures(command) {
        *known = BTreeSet::new(alloc);
    }
}

// Puts those of reads and writes into a set.
fn add_touches(set: &mut BTreeSet<u128>, touches: &Touches) -> Result<(), NoMemory>
    ensures reads { OnOk result (HasStarts touches.now.reads.items set.old.keys set.new.keys) }
    ensures writes { OnOk result (HasStarts touches.now.writes.items set.old.keys set.new.keys) }
{
    add_starts(set, touches.reads.as_slice())?;
    add_starts(set, touches.writes.as_slice())
}

// Puts the numbers at which touches begin into a set.
fn add_starts(set: &mut BTreeSet<u128>, touches: &[Touched]) -> Result<(), NoMemory>
    ensures { OnOk result (HasStarts touches.now set.old.keys set.new.keys) }
{
    for touch in touches {
        add_start(set, touch.range.from)?;
    }
    Ok(())
}

// Puts one more number into a set.
fn add_start(set: &mut BTreeSet<u128>, start: u128) -> Result<(), NoMemory>
    ensures { OnOk result ((test : ℕ → Bool)
        → list_any test set.new.keys ≡ (test start || list_any test set.old.keys)) }
{
    set.insert(start)?;
    Ok(())
}
