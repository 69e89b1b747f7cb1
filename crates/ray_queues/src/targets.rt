ghost use Rattle.std.specs.Prelude.{◌≡◌, ◌<◌, ℕ, suc};
ghost use Rattle.ray_queues.specs.Sources.{AreTargets, IsArrived, IsEvent};
ghost use Rattle.ray_submits.specs.Submits.{QueueCommands};

use crate::arrived::{Arrived, QueueEvent};

/// How far what the commands of each queue did has been handed on to the stages of each queue.
#[derive(Clone, Copy)]
pub(crate) struct Targets {
    pub(crate) zero: Arrived,
    pub(crate) one: Arrived,
    pub(crate) two: Arrived,
    pub(crate) three: Arrived,
}

impl Targets {
    // Nothing has.
    pub(crate) fn none() -> Targets
        ensures { (q : QueueCommands) → AreTargets q 0 result }
    {
        Targets {
            zero: Arrived::none(),
            one: Arrived::none(),
            two: Arrived::none(),
            three: Arrived::none(),
        }
    }

    // The same after command number `n`.
    pub(crate) fn passed(self, n: u32, event: QueueEvent) -> Targets
        ensures { (q : QueueCommands) → IsEvent q n event → AreTargets q n self
            → AreTargets q (suc n) result }
    {
        Targets {
            zero: self.zero.passed(0, n, event),
            one: self.one.passed(1, n, event),
            two: self.two.passed(2, n, event),
            three: self.three.passed(3, n, event),
        }
    }

    // What has reached a queue, which is from 0 to 3.
    pub(crate) fn of(&self, queue: u32) -> Arrived
        ensures { queue < 4 → (q : QueueCommands) (n : ℕ) → AreTargets q n self.now
            → IsArrived q queue n result }
    {
        match queue {
            0 => self.zero,
            1 => self.one,
            2 => self.two,
            _ => self.three,
        }
    }
}
