ghost use Rattle.std.specs.Prelude.{◌≡◌, ◌<◌, IfOk, IfSome, Some, length};
ghost use Rattle.ray_rules.specs.Hazards.{status_at};
ghost use Rattle.ray_rules.specs.Order.{barriers};
ghost use Rattle.ray_rules.specs.Verdict.{rule_refusal};
ghost use Rattle.ray_kinds.specs.Misfits.{IsMisfitAt};

use crate::listing::first_misfit;
use crate::misfit::Misfit;
use ray_causes::status_there;
use ray_cmd::{Recording, Refusal};
use ray_status::Status;
use std::alloc::{AllocError as NoMemory, Global};

/// What of the command of the refusal of a recording doesn't fit, where its rule is one that is
/// told here and the command tells it. Own.
///
/// # Errors
///
/// For want of memory alone.
pub fn misfit_of(
    alloc: Global,
    rec: &Recording,
    refusal: Refusal,
) -> Result<Option<Misfit>, NoMemory>
    requires refused { rule_refusal (barriers rec.now) rec.now ≡ Some refusal }
    ensures { IfOk result (λ found. IfSome found (λ misfit. IsMisfitAt rec.now refusal misfit)) }
{
    match status_there(alloc, rec, refusal) {
        Ok(Some(status)) => Ok(misfit_there(rec, &status, refusal)),
        Ok(None) => Ok(None),
        Err(NoMemory) => Err(NoMemory),
    }
}

// The same where this status stands before the command.
fn misfit_there(rec: &Recording, status: &Status, refusal: Refusal) -> Option<Misfit>
    requires status { status.now ≡ status_at rec.now refusal.command }
    ensures { IfSome result (λ misfit. IsMisfitAt rec.now refusal misfit) }
{
    if rec.len() <= refusal.command {
        None
    } else {
        misfit_here(rec, status, refusal)
    }
}

// The same where the recording has the command.
fn misfit_here(rec: &Recording, status: &Status, refusal: Refusal) -> Option<Misfit>
    requires there { refusal.command < length rec.now }
    requires status { status.now ≡ status_at rec.now refusal.command }
    ensures { IfSome result (λ misfit. IsMisfitAt rec.now refusal misfit) }
{
    let command = rec.command(refusal.command);
    first_misfit(status, command, refusal)
}
