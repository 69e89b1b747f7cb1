//! The rule of the shared word, and what each kind of step tells. Nothing here runs.

use atomic_table::{Join, Play, Split, TableRule};
use std::collections::LinkedList;
use std::marker::{Brand, PhantomData};

/// What a seat knows. No value of it is made: it stands in contracts alone. (Own.)
pub struct View {
    /// The numbers that were drawn, in order.
    pub drawn: LinkedList<u32>,
    /// Whether a draw came upon a word of n or more.
    pub ended: bool,
    /// Whether the seat was joined into another.
    pub spent: bool,
    /// How often the seat can still be split.
    pub splits: u64,
    /// How many steps of the word the seat has taken, by its draws and those joined into it.
    pub steps: u64,
}

/// The rule of the word, whose key is n. (Own.)
pub struct ClaimRule;

impl TableRule<(), View, u32> for ClaimRule {
    ghost use Rattle.std.specs.Prelude.{false, []};
    ghost use Rattle.ray_claim.specs.Rule.{HasClaims};
    ghost use Rattle.ray_claim.specs.Steps.{knows};

    ghost holds = { HasClaims };

    ghost first = { λ _. knows [] false false 65535 0 };
}

/// How many numbers there are, as a draw's step is told it. (Own.)
pub(crate) trait Limit {
    ghost use Rattle.std.specs.Prelude.{ℕ};

    ghost limit: { ℕ };
}

impl Limit for Brand {
    ghost limit = { 0 };
}

/// What a draw tells: see `Draws`. (Own.)
pub(crate) struct Draw<L> {
    limit: PhantomData<L>,
}

impl<L: Limit> Play<(), View> for Draw<L> {
    ghost use Rattle.ray_claim.specs.Steps.{Draws};

    ghost then = { Draws L.limit };
}

/// How a seat's view is cut in two, and how two views are put together. (Own.)
pub(crate) struct Seats;

impl Split<View> for Seats {
    ghost use Rattle.ray_claim.specs.Steps.{cut, fresh};

    ghost left = { cut };

    ghost right = { fresh };
}

impl Join<View> for Seats {
    ghost use Rattle.ray_claim.specs.Steps.{both, spent};

    ghost both = { both };

    ghost spent = { spent };
}
