ghost use Rattle.std.specs.Prelude.{◌≡◌, ◌<◌, ◌≤◌, IfOk, IfSome, List, Some, length, slice_get, ℕ};
ghost use Rattle.ray_cmd.specs.declared.command.Command.{Command as ACommand};
ghost use Rattle.ray_cmd.specs.declared.place.Place.TheVariants.{Earlier};
ghost use Rattle.ray_cmd.specs.declared.rule.Rule.TheVariants.{V};
ghost use Rattle.ray_access.specs.Lists.{AreTouched};
ghost use Rattle.ray_rules.specs.Access.{stage_of};
ghost use Rattle.ray_rules.specs.Hazards.{stage_at, status_at};
ghost use Rattle.ray_rules.specs.Order.{barriers, is_ordered_to};
ghost use Rattle.ray_rules.specs.Verdict.{GoOn, rule_refusal};
ghost use Rattle.ray_clash.specs.Clashes.{IsClash, IsClashAt, earlier_touches, later_stage};
ghost use Rattle.ray_clash.specs.Clashes.{later_touches, number_of};
ghost use Rattle.ray_clash.specs.Handing.{reached_at};
ghost use Rattle.ray_clash.specs.Pairs.{IsPairAt};

use crate::clash::Clash;
use crate::handing::{Asking, Deed, Passed, passed_to};
use crate::pairs::{Hazard, Pair, first_clash};
use ray_access::{Touched, host_touches_of, touches_of};
use ray_causes::status_before;
use ray_cmd::{Command, Place, Recording, Refusal, Rule};
use ray_rules::{AccessType, Kind, Stage, kind_of};
use ray_status::Status;
use std::alloc::{AllocError as NoMemory, Global};

/// Why the command of the refusal of a recording is at odds with an earlier one, where its rule is
/// one on hazards. Own.
///
/// # Errors
///
/// For want of memory alone.
pub fn clash_of(alloc: Global, rec: &Recording, refusal: Refusal) -> Result<Option<Clash>, NoMemory>
    requires refused { rule_refusal (barriers rec.now) rec.now ≡ Some refusal }
    ensures { IfOk result (λ found. IfSome found (λ clash. IsClashAt rec.now refusal clash)) }
{
    let (Some(hazard), Some(earlier)) = (hazard_of(refusal.rule), earlier_of(refusal.place)) else {
        return Ok(None);
    };
    if rec.len() <= refusal.command || refusal.command <= earlier {
        return Ok(None);
    }
    clash_at(alloc, rec, hazard, earlier, refusal.command)
}

// The hazard of a rule, if it is one of a hazard.
fn hazard_of(rule: Rule) -> Option<Hazard>
    ensures { IfSome result (λ hazard. rule ≡ V (number_of hazard)) }
{
    match rule {
        Rule::V(25) => Some(Hazard::ReadAfterWrite),
        Rule::V(26) => Some(Hazard::WriteAfterWrite),
        Rule::V(27) => Some(Hazard::WriteAfterRead),
        Rule::V(32) => Some(Hazard::HostRead),
        _ => None,
    }
}

// The earlier command of a place, if it is one.
fn earlier_of(place: Place) -> Option<u32>
    ensures { IfSome result (λ earlier. place ≡ Earlier earlier) }
{
    match place {
        Place::Earlier(earlier) => Some(earlier),
        _ => None,
    }
}

// Why command number `j` is at odds with command number `i` by a hazard.
fn clash_at(
    alloc: Global,
    rec: &Recording,
    hazard: Hazard,
    i: u32,
    j: u32,
) -> Result<Option<Clash>, NoMemory>
    requires order { i < j }
    requires within { j < length rec.now }
    requires go_on { GoOn rec.now j }
    ensures { IfOk result (λ found. IfSome found (IsClash hazard rec.now i j)) }
{
    let one = rec.command(i);
    let other = rec.command(j);
    let (Some(stage), Some(to)) = (stage_of(one), stage_to(hazard, other)) else {
        return Ok(None);
    };
    let ordered = is_ordered(alloc, rec, i, j, stage, to)?;
    let pair = Pair {
        hazard,
        earlier: i,
        stage,
        later: j,
        to,
        ordered,
        put: place_between(rec, hazard, i, j),
    };
    let before = status_before(alloc, rec, i)?;
    let earlier = touches_before(alloc, rec, &before, one, hazard)?;
    let there = status_before(alloc, rec, j)?;
    let later = touches_there(alloc, rec, &there, other, hazard)?;
    first_clash(alloc, rec, &pair, earlier.as_slice(), later.as_slice())
}

// Before which command a barrier may be put in: before the later one, and where that is of the host
// before the end of the last command buffer between, if there is one.
fn place_between(rec: &Recording, hazard: Hazard, i: u32, j: u32) -> u32
    requires order { i < j }
    requires within { j < length rec.now }
    ensures after { i < result }
    ensures before { result ≤ j }
{
    match hazard {
        Hazard::HostRead => last_end(rec, i, j),
        _ => j,
    }
}

// The last end of a command buffer between two commands, and the second command where there is
// none.
fn last_end(rec: &Recording, i: u32, j: u32) -> u32
    requires order { i < j }
    requires within { j < length rec.now }
    ensures after { i < result }
    ensures before { result ≤ j }
{
    let mut last = j;
    for n in i + 1..j {
        if let Command::End = rec.command(n) {
            last = n;
        }
    }
    last
}

// The stage of a command, where the device does it.
#[tactic(auto, unfolding(ray_rules::specs::Access::stage_of))]
fn stage_of(command: &Command) -> Option<Stage>
    ensures { result ≡ stage_of command.now }
{
    match kind_of(command) {
        Kind::Device(stage) => Some(stage),
        Kind::Barrier | Kind::HostCommand => None,
    }
}

// The stage of the later command of a hazard.
fn stage_to(hazard: Hazard, command: &Command) -> Option<Stage>
    ensures { (rec : List ACommand) (j : ℕ) → slice_get rec j ≡ Some command.now
        → result ≡ later_stage hazard rec j }
{
    match hazard {
        Hazard::HostRead => Some(Stage::Host),
        _ => stage_of(command),
    }
}

// Whether command number `i`, of a stage, is ordered before command number `j` at a stage.
fn is_ordered(
    alloc: Global,
    rec: &Recording,
    i: u32,
    j: u32,
    stage: Stage,
    to: Stage,
) -> Result<bool, NoMemory>
    requires order { i < j }
    requires within { j ≤ length rec.now }
    requires go_on { GoOn rec.now j }
    ensures { IfOk result (λ ordered. ordered ≡ is_ordered_to rec.now i stage j to) }
{
    let asking = Asking {
        stage,
        deed: Deed::Any,
        to,
        access: AccessType::HostRead,
    };
    let passed = passed_to(alloc, rec, i, j, &asking)?;
    Ok(reached_at(passed, to))
}

// Whether a stage has been reached.
fn reached_at(passed: Passed, stage: Stage) -> bool
    ensures { result ≡ reached_at passed stage }
{
    match stage {
        Stage::Transfer => passed.transfer,
        Stage::Build => passed.build,
        Stage::StructureCopy => passed.structure_copy,
        Stage::Compute => passed.compute,
        Stage::Host => passed.host,
    }
}

// By what an earlier command may be at odds by a hazard.
fn touches_before(
    alloc: Global,
    rec: &Recording,
    status: &Status,
    command: &Command,
    hazard: Hazard,
) -> Result<Vec<Touched>, NoMemory>
    ensures { IfOk result (λ list. (i : ℕ) → slice_get rec.now i ≡ Some command.now
        → status.now ≡ status_at rec.now i
        → AreTouched status.now (earlier_touches hazard rec.now i) list.items) }
{
    let touches = touches_of(alloc, rec, status, command)?;
    match hazard {
        Hazard::WriteAfterRead => Ok(touches.reads),
        _ => Ok(touches.writes),
    }
}

// The same of the later one.
fn touches_there(
    alloc: Global,
    rec: &Recording,
    status: &Status,
    command: &Command,
    hazard: Hazard,
) -> Result<Vec<Touched>, NoMemory>
    ensures { IfOk result (λ list. (j : ℕ) → slice_get rec.now j ≡ Some command.now
        → status.now ≡ status_at rec.now j
        → AreTouched status.now (later_touches hazard rec.now j) list.items) }
{
    match hazard {
        Hazard::HostRead => host_touches_of(alloc, status, command),
        Hazard::ReadAfterWrite => {
            let touches = touches_of(alloc, rec, status, command)?;
            Ok(touches.reads)
        }
        _ => {
            let touches = touches_of(alloc, rec, status, command)?;
            Ok(touches.writes)
        }
    }
}
