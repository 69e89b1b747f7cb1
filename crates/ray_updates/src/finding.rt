ghost use Rattle.std.specs.Prelude.{◌≡◌, ◌<◌, IfOk, IfSome, Some, length};
ghost use Rattle.ray_rules.specs.Hazards.{status_at};
ghost use Rattle.ray_rules.specs.Order.{barriers};
ghost use Rattle.ray_rules.specs.Verdict.{rule_refusal};
ghost use Rattle.ray_updates.specs.Changes.{IsUpdateAt};

use crate::change::Update;
use crate::updating::first_update;
use ray_causes::status_there;
use ray_cmd::{Recording, Refusal};
use ray_status::Status;
use std::alloc::{AllocError as NoMemory, Global};

/// In what the update for which a recording is refused differs from its source, where its rule is
/// V15. Own.
///
/// # Errors
///
/// For want of memory alone.
pub fn update_of(
    alloc: Global,
    rec: &Recording,
    refusal: Refusal,
) -> Result<Option<Update>, NoMemory>
    requires refused { rule_refusal (barriers rec.now) rec.now ≡ Some refusal }
    ensures { IfOk result (λ found. IfSome found (λ update. IsUpdateAt rec.now refusal update)) }
{
    match status_there(alloc, rec, refusal) {
        Ok(Some(status)) => Ok(update_there(rec, &status, refusal)),
        Ok(None) => Ok(None),
        Err(NoMemory) => Err(NoMemory),
    }
}

// The same where this status stands before the command.
fn update_there(rec: &Recording, status: &Status, refusal: Refusal) -> Option<Update>
    requires status { status.now ≡ status_at rec.now refusal.command }
    ensures { IfSome result (λ update. IsUpdateAt rec.now refusal update) }
{
    if rec.len() <= refusal.command {
        None
    } else {
        update_here(rec, status, refusal)
    }
}

// The same where the recording has the command.
fn update_here(rec: &Recording, status: &Status, refusal: Refusal) -> Option<Update>
    requires there { refusal.command < length rec.now }
    requires status { status.now ≡ status_at rec.now refusal.command }
    ensures { IfSome result (λ update. IsUpdateAt rec.now refusal update) }
{
    let command = rec.command(refusal.command);
    first_update(rec, status, command, refusal)
}
