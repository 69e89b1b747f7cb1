ghost use Rattle.std.specs.Prelude.{◌≡◌, ◌≤◌, ◌<◌, ◌^◌, ◌++◌, ℕ, List, [], IfOk, OnOk, None};
ghost use Rattle.std.specs.Prelude.{length, suc, take};
ghost use Rattle.std.specs.List.{cons_option};
ghost use Rattle.std.specs.Option.{option_map_or};
ghost use Rattle.ray_access.specs.Lists.{AreTouched};
ghost use Rattle.ray_cmd.specs.declared.command.Command.{Command as ACommand};
ghost use Rattle.ray_rules.specs.declared.touch.Touch.{Touch as ATouch};
ghost use Rattle.ray_rules.specs.Hazards.{greatest_with, read_unordered, status_at};
ghost use Rattle.ray_rules.specs.Hazards.{v25, v26, v27, v32, wrote_uncovered};
ghost use Rattle.ray_rules.specs.Order.{barriers};
ghost use Rattle.ray_rules.specs.Verdict.{GoOn, first_hazard, hazard_of};
ghost use Rattle.ray_hazards.specs.Carrying.{AreCarried};
ghost use Rattle.ray_hazards.specs.Checks.{IsDoing};
ghost use Rattle.ray_sync.specs.Hazards.{hazards_below};
ghost use Rattle.ray_sync.specs.Kinds.{AreFronts};
ghost use Rattle.ray_sync.specs.OneQueue.{in_order, one_queue};
ghost use Rattle.ray_hazards.specs.Lanes.{AreEnough, AreLanes};
ghost use Rattle.ray_hazards.specs.Lasts.{ArePlaced, HaveStarts};
ghost use Rattle.ray_hazards.specs.Reaching.{AreReached};

use crate::fronts::Fronts;
use crate::hazards::{last_uncovered, last_unordered};
use crate::order::Order;
use crate::passing::pass;
use ray_access::{Touched, sharing_is_meeting};
use ray_cmd::{Place, Recording, Refusal};
use ray_hazards::{Cells, Coverage, Doing, Lanes, Tops, doing_of, earlier, least, starts_of};
use ray_rules::Stage;
use ray_status::Status;
use std::alloc::{AllocError as NoMemory, Global};

// The greatest number of cells, 2^32.
const MOST_CELLS: usize = 4_294_967_296;

/// The refusal of the first command that an order is of which breaks a rule on hazards, V25, V26,
/// V27 or V32, by the least that it breaks, with the greatest earlier command that it is at odds
/// with as the place. None exactly where none does. It takes n log n steps in the number n of
/// commands and of what they read and write.
///
/// # Errors
///
/// For want of memory alone.
pub fn check_sync(
    alloc: Global,
    rec: &Recording,
    order: &Order,
) -> Result<Option<Refusal>, NoMemory>
    requires until { length order.now ≤ length rec.now }
    requires go_on { GoOn rec.now (length order.now) }
    ensures { IfOk result (λ hazard. hazard
        ≡ first_hazard (barriers rec.now) rec.now (length order.now)) }
{
    let found = all_hazards(alloc, rec, order, 1)?;
    Ok(found.as_slice().first().copied())
}

/// Of each command that an order is of which breaks a rule on hazards, the refusal by the least, as
/// of [`check_sync`], in rising order of commands. Of more than `most` it gives the first.
///
/// # Errors
///
/// For want of memory alone.
pub fn all_hazards(
    alloc: Global,
    rec: &Recording,
    order: &Order,
    most: usize,
) -> Result<Vec<Refusal>, NoMemory>
    requires until { length order.now ≤ length rec.now }
    requires go_on { GoOn rec.now (length order.now) }
    ensures { IfOk result (λ found. found.items
        ≡ take most (hazards_below (barriers rec.now) rec.now (length order.now))) }
{
    let count = rec.len();
    let until = order.until() as u32;
    let starts = starts_of(alloc, rec, until)?;
    let cells = Cells::of(alloc, &starts)?;
    if MOST_CELLS < cells.count() {
        return Err(NoMemory);
    }
    found_below(alloc, rec, until, &cells, most)
}

// The same of the commands below a number, where the axis is cut at all that they touch.
fn found_below(
    alloc: Global,
    rec: &Recording,
    until: u32,
    cells: &Cells,
    most: usize,
) -> Result<Vec<Refusal>, NoMemory>
    requires until { until ≤ length rec.now }
    requires cells { length cells.now ≤ 2 ^ 32 }
    requires go_on { GoOn rec.now until }
    requires starts { HaveStarts rec.now cells.now until }
    ensures { IfOk result (λ found. found.items
        ≡ take most (hazards_below (barriers rec.now) rec.now until)) }
{
    let mut found = Vec::new(alloc);
    let mut lanes = Lanes::new(cells.count());
    let mut tops = Tops::none(alloc);
    let mut coverage = Coverage::new(alloc);
    let mut fronts = Fronts::none();
    let mut status = Status::new(alloc);
    for n in 0..until {
        if most <= found.len() {
            return Ok(found);
        }
        let command = rec.command(n);
        let doing = doing_of(alloc, rec, &status, command, &mut tops, cells)?;
        let hazard = hazard_of(n, &doing, &lanes, &coverage, fronts, cells);
        note(&mut found, hazard)?;
        lanes.mark(alloc, n, doing.stage, &doing.touches, cells)?;
        pass(alloc, &mut coverage, n, command, &status)?;
        fronts = fronts.after(n, command);
        tops.pass(alloc, command);
        status.step(n, command)?;
    }
    Ok(found)
}

// Puts a hazard behind those that were found, where there is one.
fn note(found: &mut Vec<Refusal>, hazard: Option<Refusal>) -> Result<(), NoMemory>
    ensures { OnOk result (found.new.items ≡ found.old.items ++ cons_option hazard []) }
{
    if let Some(refusal) = hazard {
        found.push(refusal)?;
    }
    Ok(())
}

// The refusal of command number `n` by the least rule on hazards that it breaks.
fn hazard_of(
    n: u32,
    doing: &Doing,
    lanes: &Lanes,
    coverage: &Coverage,
    fronts: Fronts,
    cells: &Cells,
) -> Option<Refusal>
    requires { AreEnough (length cells.now) lanes.now }
    ensures { (rec : List ACommand) → AreLanes (in_order rec) cells.now n lanes.now
        → AreCarried (one_queue rec) 0 n coverage.now
        → AreFronts rec n fronts → IsDoing rec cells.now n doing.now → HaveStarts rec cells.now (suc n)
        → result ≡ hazard_of (barriers rec) rec n }
{
    let read = v25(doing, lanes, coverage, cells);
    let written = v26(doing, lanes, coverage, cells);
    let overwritten = v27(n, doing, lanes, fronts, cells);
    let shown = v32(doing, lanes, coverage, cells);
    least(n, read, written, overwritten, shown)
}

// V25: the last command that wrote what a command reads, not covered.
fn v25(doing: &Doing, lanes: &Lanes, coverage: &Coverage, cells: &Cells) -> Option<Place>
    requires { AreEnough (length cells.now) lanes.now }
    ensures { (rec : List ACommand) (n : ℕ) → AreLanes (in_order rec) cells.now n lanes.now
        → AreCarried (one_queue rec) 0 n coverage.now → IsDoing rec cells.now n doing.now
        → HaveStarts rec cells.now (suc n) → result ≡ v25 (barriers rec) rec n }
{
    let reads = doing.touches.reads.as_slice();
    uncovered_at(doing.stage, reads, lanes, coverage, cells)
}

// V26: the last command that wrote what a command writes, not covered.
fn v26(doing: &Doing, lanes: &Lanes, coverage: &Coverage, cells: &Cells) -> Option<Place>
    requires { AreEnough (length cells.now) lanes.now }
    ensures { (rec : List ACommand) (n : ℕ) → AreLanes (in_order rec) cells.now n lanes.now
        → AreCarried (one_queue rec) 0 n coverage.now → IsDoing rec cells.now n doing.now
        → HaveStarts rec cells.now (suc n) → result ≡ v26 (barriers rec) rec n }
{
    let writes = doing.touches.writes.as_slice();
    uncovered_at(doing.stage, writes, lanes, coverage, cells)
}

// V27: the last command that read what command number `n` writes, not ordered before it.
fn v27(n: u32, doing: &Doing, lanes: &Lanes, fronts: Fronts, cells: &Cells) -> Option<Place>
    requires { AreEnough (length cells.now) lanes.now }
    ensures { (rec : List ACommand) → AreLanes (in_order rec) cells.now n lanes.now
        → AreFronts rec n fronts → IsDoing rec cells.now n doing.now → HaveStarts rec cells.now (suc n)
        → result ≡ v27 (barriers rec) rec n }
{
    let writes = doing.touches.writes.as_slice();
    unordered_at(n, doing.stage, fronts, writes, lanes, cells)
}

// V32: the last command that wrote what a `read` shows, not covered to the host.
fn v32(doing: &Doing, lanes: &Lanes, coverage: &Coverage, cells: &Cells) -> Option<Place>
    requires { AreEnough (length cells.now) lanes.now }
    ensures { (rec : List ACommand) (n : ℕ) → AreLanes (in_order rec) cells.now n lanes.now
        → AreCarried (one_queue rec) 0 n coverage.now → IsDoing rec cells.now n doing.now
        → HaveStarts rec cells.now (suc n) → result ≡ v32 (barriers rec) rec n }
{
    uncovered(Stage::Host, doing.host.as_slice(), lanes, coverage, cells)
}

// The last command that wrote what these touches at the stage of a command reach, not covered.
fn uncovered_at(
    stage: Option<Stage>,
    touches: &[Touched],
    lanes: &Lanes,
    coverage: &Coverage,
    cells: &Cells,
) -> Option<Place>
    requires { AreEnough (length cells.now) lanes.now }
    ensures { (rec : List ACommand) (n : ℕ) (ts : List ATouch)
        → AreLanes (in_order rec) cells.now n lanes.now
        → AreCarried (one_queue rec) 0 n coverage.now → AreReached (status_at rec n) cells.now ts touches.now
        → ArePlaced rec cells.now n ts
        → HaveStarts rec cells.now n
        → result ≡ option_map_or
        (λ to. greatest_with (wrote_uncovered (barriers rec) rec n to) ts n) stage None }
{
    match stage {
        Some(to) => uncovered(to, touches, lanes, coverage, cells),
        None => None,
    }
}

// The last command that wrote what these touches at a stage reach, not covered.
fn uncovered(
    to: Stage,
    touches: &[Touched],
    lanes: &Lanes,
    coverage: &Coverage,
    cells: &Cells,
) -> Option<Place>
    requires { AreEnough (length cells.now) lanes.now }
    ensures { (rec : List ACommand) (n : ℕ) (ts : List ATouch)
        → AreLanes (in_order rec) cells.now n lanes.now
        → AreCarried (one_queue rec) 0 n coverage.now → AreReached (status_at rec n) cells.now ts touches.now
        → ArePlaced rec cells.now n ts
        → HaveStarts rec cells.now n → result
        ≡ greatest_with (wrote_uncovered (barriers rec) rec n to) ts n }
{
    sharing_is_meeting();
    earlier(last_uncovered(lanes, coverage, to, touches, cells))
}

// The last command that read what these touches at the stage of command number `n` reach, not
// ordered before it.
fn unordered_at(
    n: u32,
    stage: Option<Stage>,
    fronts: Fronts,
    touches: &[Touched],
    lanes: &Lanes,
    cells: &Cells,
) -> Option<Place>
    requires { AreEnough (length cells.now) lanes.now }
    ensures { (rec : List ACommand) (ts : List ATouch)
        → AreLanes (in_order rec) cells.now n lanes.now
        → AreFronts rec n fronts → AreTouched (status_at rec n) ts touches.now
        → ArePlaced rec cells.now n ts → HaveStarts rec cells.now n
        → result ≡ option_map_or
        (λ to. greatest_with (read_unordered (barriers rec) rec n to) ts n) stage None }
{
    match stage {
        Some(to) => unordered(n, to, fronts, touches, lanes, cells),
        None => None,
    }
}

// The last command that read what these touches at a stage reach, not ordered before command number
// `n` there.
fn unordered(
    n: u32,
    to: Stage,
    fronts: Fronts,
    touches: &[Touched],
    lanes: &Lanes,
    cells: &Cells,
) -> Option<Place>
    requires { AreEnough (length cells.now) lanes.now }
    ensures { (rec : List ACommand) (ts : List ATouch)
        → AreLanes (in_order rec) cells.now n lanes.now
        → AreFronts rec n fronts → AreTouched (status_at rec n) ts touches.now
        → ArePlaced rec cells.now n ts → HaveStarts rec cells.now n
        → result ≡ greatest_with (read_unordered (barriers rec) rec n to) ts n }
{
    sharing_is_meeting();
    earlier(last_unordered(lanes, fronts.stage_limits(to), touches, cells))
}
