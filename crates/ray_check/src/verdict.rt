ghost use Rattle.std.specs.Prelude.{◌≡◌, ◌≤◌, IfOk, IfSome, length};
ghost use Rattle.ray_rules.specs.Order.{barriers};
ghost use Rattle.ray_rules.specs.Verdict.{rule_refusal};

use crate::joining::{first_of_two, looked_at};
use ray_cmd::{Recording, Refusal};
use ray_sync::{check_sync, order_of};
use ray_valid::check_static;
use std::alloc::{AllocError as NoMemory, Global};

/// The refusal of the first command of a recording that breaks a rule V1 to V32, by the least rule
/// that it breaks, with its place. None exactly where none does. The end of the recording counts as
/// one further command, which can break V28 alone.
///
/// # Errors
///
/// For want of memory alone.
pub fn check_rules(alloc: Global, rec: &Recording) -> Result<Option<Refusal>, NoMemory>
    ensures value { IfOk result (λ refusal. refusal ≡ rule_refusal (barriers rec.now) rec.now) }
    ensures within { IfOk result (λ refusal. IfSome refusal (λ r. r.command ≤ length rec.now)) }
{
    let refusal = check_static(alloc, rec)?;
    let until = looked_at(rec.len(), refusal);
    let order = order_of(alloc, rec, until)?;
    let hazard = check_sync(alloc, rec, &order)?;
    Ok(first_of_two(refusal, hazard))
}
