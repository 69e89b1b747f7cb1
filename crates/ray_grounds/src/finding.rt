ghost use Rattle.std.specs.Prelude.{◌≡◌, ◌<◌, IfOk, IfSome, Some, length};
ghost use Rattle.ray_rules.specs.Hazards.{status_at};
ghost use Rattle.ray_rules.specs.Order.{barriers};
ghost use Rattle.ray_rules.specs.Verdict.{rule_refusal};
ghost use Rattle.ray_grounds.specs.Grounds.{IsGroundAt};

use crate::grounds::Ground;
use crate::listing::first_ground;
use ray_causes::status_there;
use ray_cmd::{Recording, Refusal};
use ray_status::Status;
use std::alloc::{AllocError as NoMemory, Global};

/// On which ground the command of the refusal of a recording is refused, where its rule is one that
/// is told here and the command tells it. Own.
///
/// # Errors
///
/// For want of memory alone.
pub fn ground_of(
    alloc: Global,
    rec: &Recording,
    refusal: Refusal,
) -> Result<Option<Ground>, NoMemory>
    requires refused { rule_refusal (barriers rec.now) rec.now ≡ Some refusal }
    ensures { IfOk result (λ found. IfSome found (λ basis. IsGroundAt rec.now refusal basis)) }
{
    match status_there(alloc, rec, refusal) {
        Ok(Some(status)) => Ok(ground_there(rec, &status, refusal)),
        Ok(None) => Ok(None),
        Err(NoMemory) => Err(NoMemory),
    }
}

// The same where this status stands before the command.
fn ground_there(rec: &Recording, status: &Status, refusal: Refusal) -> Option<Ground>
    requires status { status.now ≡ status_at rec.now refusal.command }
    ensures { IfSome result (λ basis. IsGroundAt rec.now refusal basis) }
{
    if rec.len() <= refusal.command {
        None
    } else {
        ground_here(rec, status, refusal)
    }
}

// The same where the recording has the command.
fn ground_here(rec: &Recording, status: &Status, refusal: Refusal) -> Option<Ground>
    requires there { refusal.command < length rec.now }
    requires status { status.now ≡ status_at rec.now refusal.command }
    ensures { IfSome result (λ basis. IsGroundAt rec.now refusal basis) }
{
    let command = rec.command(refusal.command);
    first_ground(rec, status, command, refusal)
}
