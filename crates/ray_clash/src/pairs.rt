//! The accesses of two commands, two by two.
ghost use Rattle.std.specs.Prelude.{◌≡◌, ◌<◌, ◌≤◌, IfOk, IfSome, List, false, length};
ghost use Rattle.ray_access.specs.Lists.{AreTouched};
ghost use Rattle.ray_rules.specs.declared.touch.Touch.{Touch as ATouch};
ghost use Rattle.ray_rules.specs.Hazards.{status_at};
ghost use Rattle.ray_rules.specs.Status.{Status as AStatus};
ghost use Rattle.ray_rules.specs.Verdict.{GoOn};
ghost use Rattle.ray_clash.specs.declared.clash.Missing.TheVariants.{Execution};
ghost use Rattle.ray_clash.specs.Clashes.{IsClash, earlier_touches, later_touches};
ghost use Rattle.ray_clash.specs.Handing.{reached_at, reaches_some};
ghost use Rattle.ray_clash.specs.Pairs.{AreSidesOf, IsHalf, IsOf, IsPairAt, sides_lack, write_lacks};

use crate::clash::{Clash, Missing, Shared, Side};
use crate::handing::{Asking, Deed, Passed, passed_to};
use crate::sharing::shared_by;
use ray_access::Touched;
use ray_cmd::Recording;
use ray_rules::{AccessType, Stage};
use std::alloc::{AllocError as NoMemory, Global};

/// A memory hazard, by its rule. (Vulkan, "Memory Dependencies"; own: the last, which is of the
/// host.)
#[derive(Clone, Copy, Debug)]
pub enum Hazard {
    /// V25: a read of what was written.
    ReadAfterWrite,
    /// V26: a write of what was written.
    WriteAfterWrite,
    /// V27: a write of what was read.
    WriteAfterRead,
    /// V32: a `read` of what was written.
    HostRead,
}

// Two commands that are at odds by a hazard, the first at a stage and the second at another,
// whether the first is ordered before the second, and before which command a barrier may be put in.
#[derive(Clone, Copy, Debug)]
pub(crate) struct Pair {
    pub(crate) hazard: Hazard,
    pub(crate) earlier: u32,
    pub(crate) stage: Stage,
    pub(crate) later: u32,
    pub(crate) to: Stage,
    pub(crate) ordered: bool,
    pub(crate) put: u32,
}

// Two accesses of which nothing was missing: to a thing, and with which accesses. What is missing
// depends on these alone, so it is asked once for all that come one after the other.
#[derive(Clone, Copy, Debug)]
struct Mended {
    thing: Option<u32>,
    from: AccessType,
    to: AccessType,
}

// By which accesses two commands are at odds: the first that are found.
pub(crate) fn first_clash(
    alloc: Global,
    rec: &Recording,
    pair: &Pair,
    earlier: &[Touched],
    later: &[Touched],
) -> Result<Option<Clash>, NoMemory>
    requires pair { IsPairAt rec.now pair.now }
    requires within { pair.now.later ≤ length rec.now }
    requires go_on { GoOn rec.now pair.now.later }
    requires earlier { AreTouched (status_at rec.now pair.now.earlier)
        (earlier_touches pair.now.hazard rec.now pair.now.earlier) earlier.now }
    requires later { AreTouched (status_at rec.now pair.now.later)
        (later_touches pair.now.hazard rec.now pair.now.later) later.now }
    ensures { IfOk result (λ found. IfSome found
        (IsClash pair.now.hazard rec.now pair.now.earlier pair.now.later)) }
{
    let mut mended = None;
    for k in 0..later.len() {
        let other = touched_at(later, k);
        let clash = clash_with(alloc, rec, pair, earlier, other, &mut mended)?;
        if clash.is_some() {
            return Ok(clash);
        }
    }
    Ok(None)
}

// One of the accesses of a list.
fn touched_at(list: &[Touched], k: usize) -> &Touched
    requires { k < length list.now }
    ensures { (z : AStatus) (ts : List ATouch) → AreTouched z ts list.now → IsOf z ts result.now }
{
    &list[k]
}

// By which of these accesses an earlier command is at odds with one of a later command.
fn clash_with(
    alloc: Global,
    rec: &Recording,
    pair: &Pair,
    earlier: &[Touched],
    other: &Touched,
    mended: &mut Option<Mended>,
) -> Result<Option<Clash>, NoMemory>
    requires pair { IsPairAt rec.now pair.now }
    requires within { pair.now.later ≤ length rec.now }
    requires go_on { GoOn rec.now pair.now.later }
    requires earlier { AreTouched (status_at rec.now pair.now.earlier)
        (earlier_touches pair.now.hazard rec.now pair.now.earlier) earlier.now }
    requires other { IsOf (status_at rec.now pair.now.later)
        (later_touches pair.now.hazard rec.now pair.now.later) other.now }
    ensures { IfOk result (λ found. IfSome found
        (IsClash pair.now.hazard rec.now pair.now.earlier pair.now.later)) }
{
    for k in 0..earlier.len() {
        let one = touched_at(earlier, k);
        let clash = clash_of_two(alloc, rec, pair, one, other, mended)?;
        if clash.is_some() {
            return Ok(clash);
        }
    }
    Ok(None)
}

// Whether, and why, two accesses are at odds.
fn clash_of_two(
    alloc: Global,
    rec: &Recording,
    pair: &Pair,
    one: &Touched,
    other: &Touched,
    mended: &mut Option<Mended>,
) -> Result<Option<Clash>, NoMemory>
    requires pair { IsPairAt rec.now pair.now }
    requires within { pair.now.later ≤ length rec.now }
    requires go_on { GoOn rec.now pair.now.later }
    requires one { IsOf (status_at rec.now pair.now.earlier)
        (earlier_touches pair.now.hazard rec.now pair.now.earlier) one.now }
    requires other { IsOf (status_at rec.now pair.now.later)
        (later_touches pair.now.hazard rec.now pair.now.later) other.now }
    ensures { IfOk result (λ found. IfSome found
        (IsClash pair.now.hazard rec.now pair.now.earlier pair.now.later)) }
{
    let Some(shared) = shared_by(one.range, other.range) else {
        return Ok(None);
    };
    if is_mended(mended, one, other) {
        return Ok(None);
    }
    let from = Side {
        stage: pair.stage,
        access: one.access,
    };
    let to = Side {
        stage: pair.to,
        access: other.access,
    };
    match missing_of(alloc, rec, pair, one.buffer, from, to)? {
        Some(missing) => Ok(Some(Clash {
            earlier: from,
            later: to,
            shared,
            missing,
            put: pair.put,
        })),
        None => {
            *mended = Some(Mended {
                thing: one.buffer,
                from: one.access,
                to: other.access,
            });
            Ok(None)
        }
    }
}

// Whether nothing was missing of two accesses like these when that was asked last.
fn is_mended(mended: &Option<Mended>, one: &Touched, other: &Touched) -> bool {
    match mended {
        Some(last) => {
            last.thing == one.buffer && last.from == one.access && last.to == other.access
        }
        None => false,
    }
}

// What is missing between two accesses to a thing. None where nothing is.
fn missing_of(
    alloc: Global,
    rec: &Recording,
    pair: &Pair,
    thing: Option<u32>,
    from: Side,
    to: Side,
) -> Result<Option<Missing>, NoMemory>
    requires pair { IsPairAt rec.now pair.now }
    requires within { pair.now.later ≤ length rec.now }
    requires go_on { GoOn rec.now pair.now.later }
    requires sides { AreSidesOf pair.now from to }
    ensures { IfOk result (λ found. IfSome found (sides_lack rec.now pair.now thing from to)) }
{
    match pair.hazard {
        Hazard::WriteAfterRead => Ok(unordered(pair.ordered)),
        _ => missing_of_write(alloc, rec, pair, thing, from, to),
    }
}

// That commands aren't ordered.
fn unordered(ordered: bool) -> Option<Missing>
    ensures { IfSome result (λ missing. (ordered ≡ false) × (missing ≡ Execution)) }
{
    if ordered {
        None
    } else {
        Some(Missing::Execution)
    }
}

// The same where the earlier one writes.
fn missing_of_write(
    alloc: Global,
    rec: &Recording,
    pair: &Pair,
    thing: Option<u32>,
    from: Side,
    to: Side,
) -> Result<Option<Missing>, NoMemory>
    requires pair { IsPairAt rec.now pair.now }
    requires within { pair.now.later ≤ length rec.now }
    requires go_on { GoOn rec.now pair.now.later }
    requires sides { AreSidesOf pair.now from to }
    ensures { IfOk result (λ found. IfSome found
        (write_lacks rec.now pair.now thing from to)) }
{
    let asking = Asking {
        stage: from.stage,
        deed: Deed::Write(from.access, thing),
        to: to.stage,
        access: to.access,
    };
    let passed = passed_to(alloc, rec, pair.earlier, pair.later, &asking)?;
    Ok(half_missing(pair.ordered, passed))
}

// Which half of a dependency is missing. None where neither is.
fn half_missing(ordered: bool, passed: Passed) -> Option<Missing>
    ensures { IfSome result (IsHalf ordered passed) }
{
    if passed.seen {
        None
    } else if !ordered {
        Some(Missing::Execution)
    } else if reaches_some(passed) {
        Some(Missing::Visibility)
    } else {
        Some(Missing::Availability)
    }
}

// Whether some stage was reached.
fn reaches_some(passed: Passed) -> bool
    ensures { result ≡ reaches_some (reached_at passed) }
{
    passed.transfer || passed.build || passed.structure_copy || passed.compute || passed.host
}
