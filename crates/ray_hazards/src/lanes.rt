ghost use Rattle.std.specs.Prelude.{◌≡◌, ◌≤◌, ◌^◌, ℕ, List, length};
ghost use Rattle.ray_rules.specs.declared.stage.Stage.{Stage as AStage};
ghost use Rattle.ray_hazards.specs.declared.limits.Accessed.{Accessed as AnAccessed};
ghost use Rattle.ray_hazards.specs.Counting.{Counted};
ghost use Rattle.ray_hazards.specs.Lanes.{AnyUncovered, AnyUnordered, AreCoveredBelow, AreEnough};
ghost use Rattle.ray_hazards.specs.Lanes.{AreLanes, AreOrdered, NoneCounts};
ghost use Rattle.ray_hazards.specs.Lasts.{IsLast};

use crate::lane::greater;
use crate::limits::{PerStage, PerWay};
use ray_marks::Marks;

/// What is kept of the commands that count: for each way of writing and each cell one more than the
/// last command that wrote it so, and for each stage and each cell one more than the last command
/// that read it, 0 where there is none.
#[derive(Drop)]
pub struct Lanes {
    pub(crate) transfers: Marks,
    pub(crate) builds: Marks,
    pub(crate) properties: Marks,
    pub(crate) copies: Marks,
    pub(crate) serialized: Marks,
    pub(crate) traces: Marks,
    pub(crate) transfer_reads: Marks,
    pub(crate) build_reads: Marks,
    pub(crate) copy_reads: Marks,
    pub(crate) trace_reads: Marks,
}

impl Lanes {
    /// No command that counts has read or written. Memory is taken by what is marked: for each way
    /// of writing and each stage of reading when a command first does so.
    pub fn new(cells: usize) -> Lanes
        requires { cells ≤ 2 ^ 32 }
        ensures { (counted : Counted) (starts : List ℕ) (n : ℕ) → length starts ≡ cells
            → NoneCounts counted n → AreLanes counted starts n result }
    {
        let transfers = Marks::new(cells);
        let builds = Marks::new(cells);
        let properties = Marks::new(cells);
        let copies = Marks::new(cells);
        let serialized = Marks::new(cells);
        let traces = Marks::new(cells);
        let transfer_reads = Marks::new(cells);
        let build_reads = Marks::new(cells);
        let copy_reads = Marks::new(cells);
        let trace_reads = Marks::new(cells);
        Lanes {
            transfers,
            builds,
            properties,
            copies,
            serialized,
            traces,
            transfer_reads,
            build_reads,
            copy_reads,
            trace_reads,
        }
    }

    /// One more than the last command that counts and wrote in cells from `start` on and below
    /// `end`, where that isn't covered to an access; and else 0. These are the numbers below which
    /// what was written in each way is covered to it.
    pub fn last_uncovered(&self, limits: PerWay, start: usize, end: usize) -> u32
        requires { AreEnough end self.now }
        ensures { (counted : Counted) (starts : List ℕ) (n : ℕ) (accessed : AnAccessed)
            → AreLanes counted starts n self.now → AreCoveredBelow counted n accessed limits
            → IsLast (AnyUncovered counted starts accessed.thing n accessed.stage accessed.access
            start end) n result }
    {
        let transfers = self.transfers.greatest_above(limits.transfers, start, end);
        let builds = self.builds.greatest_above(limits.builds, start, end);
        let properties = self
            .properties
            .greatest_above(limits.properties, start, end);
        let copies = self.copies.greatest_above(limits.copies, start, end);
        let serialized = self
            .serialized
            .greatest_above(limits.serialized, start, end);
        let traces = self.traces.greatest_above(limits.traces, start, end);
        greater(
            greater(greater(transfers, builds), greater(properties, copies)),
            greater(serialized, traces),
        )
    }

    /// One more than the last command that counts and read in cells from `start` on and below
    /// `end`, where that isn't ordered before a stage; and else 0. These are the numbers below
    /// which commands of each stage are.
    pub fn last_unordered(&self, limits: PerStage, start: usize, end: usize) -> u32
        requires { AreEnough end self.now }
        ensures { (counted : Counted) (starts : List ℕ) (n : ℕ) (to : AStage)
            → AreLanes counted starts n self.now → AreOrdered counted n to limits
            → IsLast (AnyUnordered counted starts n to start end) n result }
    {
        let transfers = self
            .transfer_reads
            .greatest_above(limits.transfer, start, end);
        let builds = self.build_reads.greatest_above(limits.build, start, end);
        let copies = self
            .copy_reads
            .greatest_above(limits.structure_copy, start, end);
        let traces = self.trace_reads.greatest_above(limits.compute, start, end);
        greater(greater(transfers, builds), greater(copies, traces))
    }
}
