//! What gives bytes.

ghost use Rattle.std.specs.Prelude.{◌≡◌, ℕ, Option, ◌<◌, ◌≤◌, ◌↔◌, List, [], length, IfOk, OnErr, IfSome, is_some};
ghost use Rattle.ray_io.specs.Faults.{HasRisen};
ghost use Rattle.ray_io.specs.Source.{GivesFirst};

use crate::failed::Failed;

/// Bytes that are read from the front, in pieces, by reads that may fail (own).
pub trait Source {
    /// The bytes it has left, where it tells them.
    ghost left: { Self → Option (List ℕ) };

    /// How many reads have failed; it never falls.
    ghost faults: { Self → ℕ };

    /// Reads once, and gives how many bytes now lie at the front of `into`. What lies behind them,
    /// and all that lies in `into` after an `Err`, is left open.
    fn read(&mut self, into: &mut [u8]) -> Result<usize, Failed>
        ensures count { IfOk result (λ n. n ≤ length into.old) }
        ensures told { IfOk result (λ n. IfSome (left self.old) (λ bytes.
            GivesFirst bytes (left self.new) n into.new)) }

        // Nothing comes, where there was room, exactly where nothing is left.
        ensures end { IfOk result (λ n. IfSome (left self.old) (λ bytes.
            0 < length into.old → (n ≡ 0) ↔ (bytes ≡ []))) }

        ensures failed { OnErr result (HasRisen (faults self.old) (faults self.new)) }
        ensures stays { OnErr result (left self.new ≡ left self.old) }
        ensures rising { faults self.old ≤ faults self.new }

        // What tells goes on telling, and what doesn't goes on not telling.
        ensures telling { is_some (left self.new) ≡ is_some (left self.old) };
}
