ghost use Rattle.std.specs.Prelude.{◌≡◌, ◌<◌, IfOk, IfSome, Some, is_some, length, true};
ghost use Rattle.ray_cmd.specs.declared.rule.Rule.TheVariants.{V};
ghost use Rattle.ray_rules.specs.Hazards.{status_at};
ghost use Rattle.ray_rules.specs.Order.{barriers};
ghost use Rattle.ray_rules.specs.Verdict.{rule_refusal};
ghost use Rattle.ray_builds.specs.Builds.{IsMisbuiltAt, is_rule_8};

use crate::listing::misbuilt_at;
use crate::misbuilt::Misbuilt;
use ray_causes::status_before;
use ray_cmd::{Recording, Refusal, Rule};
use ray_status::Status;
use std::alloc::{AllocError as NoMemory, Global};

/// By which geometry or count the command of the refusal of a recording breaks V8, where that is
/// its rule. Own.
///
/// # Errors
///
/// For want of memory alone.
pub fn misbuilt_of(
    alloc: Global,
    rec: &Recording,
    refusal: Refusal,
) -> Result<Option<Misbuilt>, NoMemory>
    requires refused { rule_refusal (barriers rec.now) rec.now ≡ Some refusal }
    ensures is { IfOk result (λ found. IfSome found (λ misbuilt.
        IsMisbuiltAt rec.now refusal misbuilt)) }
    ensures told { IfOk result (λ found. is_some found ≡ is_rule_8 refusal.rule) }
{
    match refusal.rule {
        Rule::V(8) => by_rule(alloc, rec, refusal),
        _ => Ok(None),
    }
}

// The same where the rule is V8.
fn by_rule(alloc: Global, rec: &Recording, refusal: Refusal) -> Result<Option<Misbuilt>, NoMemory>
    requires refused { rule_refusal (barriers rec.now) rec.now ≡ Some refusal }
    requires rule { refusal.rule ≡ V 8 }
    ensures is { IfOk result (λ found. IfSome found (λ misbuilt.
        IsMisbuiltAt rec.now refusal misbuilt)) }
    ensures told { IfOk result (λ found. is_some found ≡ true) }
{
    if rec.len() <= refusal.command {
        return Ok(None);
    }
    let status = status_before(alloc, rec, refusal.command)?;
    Ok(misbuilt_there(rec, &status, refusal))
}

// The same where this status stands before the command.
fn misbuilt_there(rec: &Recording, status: &Status, refusal: Refusal) -> Option<Misbuilt>
    requires refused { rule_refusal (barriers rec.now) rec.now ≡ Some refusal }
    requires rule { refusal.rule ≡ V 8 }
    requires there { refusal.command < length rec.now }
    requires status { status.now ≡ status_at rec.now refusal.command }
    ensures is { IfSome result (λ misbuilt. IsMisbuiltAt rec.now refusal misbuilt) }
    ensures told { is_some result ≡ true }
{
    let command = rec.command(refusal.command);
    misbuilt_at(status, command, refusal.place)
}
