ghost use Rattle.std.specs.Prelude.{◌≡◌, ◌≤◌, ◌+◌, ◌^◌, ◌<◌, ℕ, List, OnOk, length, suc};
ghost use Rattle.ray_hazards.specs.Checks.{IsDoing};
ghost use Rattle.ray_rules.specs.Status.{status_at};
ghost use Rattle.ray_submits.specs.Submits.{QueueCommands};
ghost use Rattle.ray_queue_check.specs.Kept.{IsKept, IsOf};
ghost use Rattle.ray_queue_check.specs.Lanes.{AllLow};

use crate::everywhere::Everywhere;
use crate::lanes::QueueLanes;
use crate::passed::passed_by;
use ray_hazards::{Cells, Doing};
use ray_queues::{Keeping, QueueRecording};
use ray_status::Status;
use std::alloc::{AllocError as NoMemory, Global};

/// What is kept of the commands so far: what each queue did, how far what it wrote is covered, and
/// the order over queues.
#[derive(Drop)]
pub(crate) struct Kept {
    pub(crate) lanes: QueueLanes,
    pub(crate) everywhere: Everywhere,
    pub(crate) keeping: Keeping,
}

impl Kept {
    // Where a recording begins.
    pub(crate) fn new(alloc: Global) -> Kept
        ensures { (q : QueueCommands) (starts : List ℕ) → IsKept q starts 0 result }
    {
        Kept {
            lanes: QueueLanes::none(),
            everywhere: Everywhere::new(alloc),
            keeping: Keeping::new(alloc),
        }
    }

    // Goes on past command number `n`, of a queue, before which a status stands.
    pub(crate) fn pass(
        &mut self,
        alloc: Global,
        rec: &QueueRecording,
        n: u32,
        doing: &Doing,
        status: &Status,
        cells: &Cells,
    ) -> Result<(), NoMemory>
        requires number { n + 1 < 2 ^ 32 }
        requires there { n < length rec.now.commands }
        requires cells { length cells.now ≤ 2 ^ 32 }
        requires below { AllLow (length cells.now) (n + 1) self.old.lanes }
        ensures { OnOk result (status.now ≡ status_at rec.now.commands n
            → IsDoing rec.now.commands cells.now n doing.now → IsKept rec.now cells.now n self.old
            → IsKept rec.now cells.now (suc n) self.new) }
    {
        rec.queues_law();
        let command = rec.recording().command(n);
        let submission = rec.submission_of(n);
        let event = passed_by(alloc, command, submission, &self.keeping, status)?;
        self.lanes.mark(alloc, rec.queue_of(n), n, doing, cells)?;
        self.everywhere.pass(alloc, n, &event)?;
        self.keeping.pass(rec, n)
    }
}
