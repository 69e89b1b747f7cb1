//! What takes bytes.

ghost use Rattle.std.specs.Prelude.{◌≡◌, ℕ, Option, ◌<◌, ◌≤◌, List, length, IfOk, OnErr, IfSome, is_some};
ghost use Rattle.ray_io.specs.Faults.{HasRisen};
ghost use Rattle.ray_io.specs.Sink.{TakesFirst};

use crate::failed::Failed;

/// A place that takes bytes one after another, in pieces, by writes that may fail (own).
pub trait Sink {
    /// The bytes it has taken, where it tells them.
    ghost taken: { Self → Option (List ℕ) };

    /// How many writes have failed; it never falls.
    ghost faults: { Self → ℕ };

    /// How many writes took no byte of a piece that isn't empty; it never falls.
    ghost zero_writes: { Self → ℕ };

    /// Writes once, and gives how many bytes from the front of `from` were taken.
    fn write(&mut self, from: &[u8]) -> Result<usize, Failed>
        ensures count { IfOk result (λ n. n ≤ length from.now) }
        ensures told { IfOk result (λ n. IfSome (taken self.old) (λ bytes.
            TakesFirst bytes (taken self.new) n from.now)) }
        ensures failed { OnErr result (HasRisen (faults self.old) (faults self.new)) }
        ensures stays { OnErr result (taken self.new ≡ taken self.old) }
        ensures zero { IfOk result (λ n. n ≡ 0 → 0 < length from.now →
            HasRisen (zero_writes self.old) (zero_writes self.new)) }
        ensures rising { faults self.old ≤ faults self.new }
        ensures zero_rising { zero_writes self.old ≤ zero_writes self.new }

        // A write that took a byte, that had none to take, or that failed isn't counted.
        ensures zero_some { IfOk result (λ n. 0 < n → zero_writes self.new ≡ zero_writes self.old) }
        ensures zero_empty { length from.now ≡ 0 → zero_writes self.new ≡ zero_writes self.old }
        ensures zero_failed { OnErr result (zero_writes self.new ≡ zero_writes self.old) }

        // What tells goes on telling, and what doesn't goes on not telling.
        ensures telling { is_some (taken self.new) ≡ is_some (taken self.old) };
}
