ghost use Rattle.std.specs.Prelude.{◌≡◌, ◌<◌, ◌≤◌, IfOk, IfSome, Some, length};
ghost use Rattle.ray_rules.specs.Hazards.{status_at};
ghost use Rattle.ray_rules.specs.Order.{barriers};
ghost use Rattle.ray_rules.specs.Verdict.{GoOn, rule_refusal};
ghost use Rattle.ray_causes.specs.Causes.{IsCauseAt};

use crate::cause::Cause;
use crate::listing::first_cause;
use ray_cmd::{Recording, Refusal};
use ray_status::Status;
use std::alloc::{AllocError as NoMemory, Global};

/// By what the command of the refusal of a recording breaks its rule, where the rule is one of V1,
/// V3, V4, V5 and V12 and a member of the command tells it. Own.
///
/// # Errors
///
/// For want of memory alone.
pub fn cause_of(alloc: Global, rec: &Recording, refusal: Refusal) -> Result<Option<Cause>, NoMemory>
    requires refused { rule_refusal (barriers rec.now) rec.now ≡ Some refusal }
    ensures { IfOk result (λ found. IfSome found (λ cause. IsCauseAt rec.now refusal cause)) }
{
    if rec.len() <= refusal.command {
        return Ok(None);
    }
    let status = status_before(alloc, rec, refusal.command)?;
    Ok(cause_there(rec, &status, refusal))
}

/// What stands where the command of the refusal of a recording does, where it is one of its
/// commands and not its end. Own.
///
/// # Errors
///
/// For want of memory alone.
pub fn status_there(
    alloc: Global,
    rec: &Recording,
    refusal: Refusal,
) -> Result<Option<Status>, NoMemory>
    requires refused { rule_refusal (barriers rec.now) rec.now ≡ Some refusal }
    ensures { IfOk result (λ found. IfSome found (λ status. status
        ≡ status_at rec.now refusal.command)) }
{
    if rec.len() <= refusal.command {
        return Ok(None);
    }
    let status = status_before(alloc, rec, refusal.command)?;
    Ok(Some(status))
}

// The same where this status stands before the command.
fn cause_there(rec: &Recording, status: &Status, refusal: Refusal) -> Option<Cause>
    requires there { refusal.command < length rec.now }
    requires status { status.now ≡ status_at rec.now refusal.command }
    ensures { IfSome result (λ cause. IsCauseAt rec.now refusal cause) }
{
    let command = rec.command(refusal.command);
    first_cause(status, command, refusal.rule, refusal.place)
}

/// What stands where command number `until` does, where each command before it names what is live,
/// has the sizes that it needs and makes no structure over another. Own.
///
/// # Errors
///
/// For want of memory alone.
pub fn status_before(alloc: Global, rec: &Recording, until: u32) -> Result<Status, NoMemory>
    requires until { until ≤ length rec.now }
    requires go_on { GoOn rec.now until }
    ensures { IfOk result (λ status. status ≡ status_at rec.now until) }
{
    let mut status = Status::new(alloc);
    for i in 0..until {
        let command = rec.command(i);
        status.step(i, command)?;
    }
    Ok(status)
}
