ghost use Rattle.std.specs.Prelude.{◌≡◌, ◌<◌, IfOk, IfSome, Some, length};
ghost use Rattle.ray_rules.specs.Hazards.{status_at};
ghost use Rattle.ray_rules.specs.Order.{barriers};
ghost use Rattle.ray_rules.specs.Verdict.{rule_refusal};
ghost use Rattle.ray_limits.specs.Limits.{IsLimitAt};

use crate::limit::Limit;
use crate::listing::first_limit;
use ray_causes::status_there;
use ray_cmd::{Recording, Refusal};
use ray_status::Status;
use std::alloc::{AllocError as NoMemory, Global};

/// By which number the command of the refusal of a recording breaks its rule, where that is one
/// that is told here and the command tells it. Own.
///
/// # Errors
///
/// For want of memory alone.
pub fn limit_of(alloc: Global, rec: &Recording, refusal: Refusal) -> Result<Option<Limit>, NoMemory>
    requires refused { rule_refusal (barriers rec.now) rec.now ≡ Some refusal }
    ensures { IfOk result (λ found. IfSome found (λ limit. IsLimitAt rec.now refusal limit)) }
{
    match status_there(alloc, rec, refusal) {
        Ok(Some(status)) => Ok(limit_there(rec, &status, refusal)),
        Ok(None) => Ok(None),
        Err(NoMemory) => Err(NoMemory),
    }
}

// The same where this status stands before the command.
fn limit_there(rec: &Recording, status: &Status, refusal: Refusal) -> Option<Limit>
    requires status { status.now ≡ status_at rec.now refusal.command }
    ensures { IfSome result (λ limit. IsLimitAt rec.now refusal limit) }
{
    if rec.len() <= refusal.command {
        None
    } else {
        limit_here(rec, status, refusal)
    }
}

// The same where the recording has the command.
fn limit_here(rec: &Recording, status: &Status, refusal: Refusal) -> Option<Limit>
    requires there { refusal.command < length rec.now }
    requires status { status.now ≡ status_at rec.now refusal.command }
    ensures { IfSome result (λ limit. IsLimitAt rec.now refusal limit) }
{
    let command = rec.command(refusal.command);
    first_limit(rec, status, command, refusal)
}
