ghost use Rattle.std.specs.Prelude.{◌≡◌, ◌+◌};

use crate::count::Count;
use std::marker::{Model, PhantomData};
use std::mem;
use std::snapshot::Snapshot;
use std::sync::ledger::Ledger;

/// A counter of steps that contracts see as a number, and that holds no bytes at run time. `L` says
/// whose steps they are. (Own.)
#[derive(Drop)]
pub struct Steps<L: Ledger> {
    last: Snapshot<Count>,
    of: PhantomData<L>,
}

impl<L: Ledger> Model for Steps<L> {
    ghost use Rattle.std.specs.Prelude.{ℕ};

    ghost Value = { ℕ };

    ghost use Rattle.ray_geom.specs.Counted.{count_of};

    ghost view = { λ s. count_of s.last.value };
}

impl<L: Ledger> Steps<L> {
    /// A counter that stands at 0.
    pub fn zero() -> Steps<L>
        ensures { result ≡ 0 }
    {
        let none = Count::Zero;
        let last = Snapshot::of(&none);
        Steps {
            last,
            of: PhantomData,
        }
    }

    /// Counts one step.
    pub fn tick(&mut self)
        ensures { self.new ≡ self.old + 1 }
    {
        let none = Count::Zero;
        let last = mem::replace(&mut self.last, Snapshot::of(&none));
        let next = Count::Next(last);
        self.last = Snapshot::of(&next);
    }
}
