ghost use Rattle.std.specs.Prelude.{◌≡◌, IfOk};
ghost use Rattle.ray_rules.specs.Order.{barriers};
ghost use Rattle.ray_rules.specs.Verdict.{rule_refusal};

use ray_cmd::{Recording, Refusal};
use std::alloc::{AllocError as NoMemory, Global};

/// Who decides the rules on a recording alone. With it this crate stands on what the rules are, and
/// not on how they are decided. Own.
pub trait Rules {
    /// The refusal of the first command that breaks a rule V1 to V32, by the least that it breaks.
    ///
    /// # Errors
    ///
    /// For want of memory alone.
    fn refusal(alloc: Global, recording: &Recording) -> Result<Option<Refusal>, NoMemory>
        ensures { IfOk result (λ refusal. refusal
            ≡ rule_refusal (barriers recording.now) recording.now) };
}
