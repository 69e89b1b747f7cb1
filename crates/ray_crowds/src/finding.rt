ghost use Rattle.std.specs.Prelude.{◌≡◌, ◌<◌, IfOk, IfSome, Some, length};
ghost use Rattle.ray_rules.specs.Hazards.{status_at};
ghost use Rattle.ray_rules.specs.Order.{barriers};
ghost use Rattle.ray_rules.specs.Verdict.{rule_refusal};
ghost use Rattle.ray_crowds.specs.Crowds.{IsCrowdAt};

use crate::crowd::Crowd;
use crate::listing::first_crowd;
use ray_causes::status_there;
use ray_cmd::{Recording, Refusal};
use ray_status::Status;
use std::alloc::{AllocError as NoMemory, Global};

/// Of what the command of the refusal of a recording has too much, where its rule is V10 or V23.
/// Own.
///
/// # Errors
///
/// For want of memory alone.
pub fn crowd_of(alloc: Global, rec: &Recording, refusal: Refusal) -> Result<Option<Crowd>, NoMemory>
    requires refused { rule_refusal (barriers rec.now) rec.now ≡ Some refusal }
    ensures { IfOk result (λ found. IfSome found (λ crowd. IsCrowdAt rec.now refusal crowd)) }
{
    match status_there(alloc, rec, refusal) {
        Ok(Some(status)) => Ok(crowd_there(rec, &status, refusal)),
        Ok(None) => Ok(None),
        Err(NoMemory) => Err(NoMemory),
    }
}

// The same where this status stands before the command.
fn crowd_there(rec: &Recording, status: &Status, refusal: Refusal) -> Option<Crowd>
    requires status { status.now ≡ status_at rec.now refusal.command }
    ensures { IfSome result (λ crowd. IsCrowdAt rec.now refusal crowd) }
{
    if rec.len() <= refusal.command {
        None
    } else {
        crowd_here(rec, status, refusal)
    }
}

// The same where the recording has the command.
fn crowd_here(rec: &Recording, status: &Status, refusal: Refusal) -> Option<Crowd>
    requires there { refusal.command < length rec.now }
    requires status { status.now ≡ status_at rec.now refusal.command }
    ensures { IfSome result (λ crowd. IsCrowdAt rec.now refusal crowd) }
{
    let command = rec.command(refusal.command);
    first_crowd(status, command, refusal)
}
