ghost use Rattle.std.specs.Prelude.{◌≡◌, IfOk, IfSome, Some, false, is_some, length, not, true};
ghost use Rattle.ray_grounds.specs.Ends.{IsUnfinishedAt, is_of_end};
ghost use Rattle.ray_rules.specs.Order.{barriers};
ghost use Rattle.ray_rules.specs.Phases.{is_same_phase};
ghost use Rattle.ray_rules.specs.Verdict.{rule_refusal};
ghost use Rattle.ray_rules.specs.declared.phase.Phase.TheVariants.{Idle};

use crate::phases::is_same_phase;
use ray_causes::status_before;
use ray_cmd::{Recording, Refusal};
use ray_rules::Phase;
use std::alloc::{AllocError as NoMemory, Global};

/// In which state the command buffer is at the end of a recording, where the end is what is refused,
/// by V28: in another one than idle. Own.
///
/// # Errors
///
/// For want of memory alone.
pub fn unfinished_of(
    alloc: Global,
    rec: &Recording,
    refusal: Refusal,
) -> Result<Option<Phase>, NoMemory>
    requires refused { rule_refusal (barriers rec.now) rec.now ≡ Some refusal }
    ensures is { IfOk result (λ found. IfSome found (λ phase.
        IsUnfinishedAt rec.now refusal phase)) }
    ensures told { IfOk result (λ found. is_some found ≡ is_of_end rec.now refusal) }
{
    if refusal.command == rec.len() {
        at_end(alloc, rec, refusal)
    } else {
        Ok(None)
    }
}

// The same of a refusal of the end.
fn at_end(alloc: Global, rec: &Recording, refusal: Refusal) -> Result<Option<Phase>, NoMemory>
    requires refused { rule_refusal (barriers rec.now) rec.now ≡ Some refusal }
    requires ends { refusal.command ≡ length rec.now }
    ensures is { IfOk result (λ found. IfSome found (λ phase.
        IsUnfinishedAt rec.now refusal phase)) }
    ensures told { IfOk result (λ found. is_some found ≡ true) }
{
    let status = status_before(alloc, rec, refusal.command)?;
    Ok(other_than_idle(status.phase()))
}

// A state, if it is another one than idle.
fn other_than_idle(phase: Phase) -> Option<Phase>
    ensures is { IfSome result (λ found. found ≡ phase) }
    ensures other { IfSome result (λ found. is_same_phase Idle found ≡ false) }
    ensures told { is_some result ≡ not (is_same_phase Idle phase) }
{
    if is_same_phase(Phase::Idle, phase) {
        None
    } else {
        Some(phase)
    }
}
