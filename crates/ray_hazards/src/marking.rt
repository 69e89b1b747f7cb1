ghost use Rattle.std.specs.Prelude.{◌+◌, ◌<◌, ◌^◌, OnOk, Some, length};
ghost use Rattle.ray_rules.specs.declared.stage.Stage.TheVariants.{Build, Compute, StructureCopy};
ghost use Rattle.ray_rules.specs.declared.stage.Stage.TheVariants.{Transfer};
ghost use Rattle.ray_hazards.specs.Lanes.{LanesBelow, MarksNext};

use crate::cells::Cells;
use crate::lane::{mark_reads, mark_writes};
use crate::lanes::Lanes;
use ray_access::Touches;
use ray_rules::{AccessType, Stage};
use std::alloc::{AllocError as NoMemory, Global};

impl Lanes {
    // Marks what command number `n`, a transfer, read and wrote.
    fn mark_transfer(
        &mut self,
        alloc: Global,
        n: u32,
        touches: &Touches,
        cells: &Cells,
    ) -> Result<(), NoMemory>
        requires number { n + 1 < 2 ^ 32 }
        requires below { LanesBelow (length cells.now) (n + 1) self.old }
        ensures { OnOk result (MarksNext n (Some Transfer) touches.now cells.now self.old self.new) }
    {
        let value = n + 1;
        let writes = touches.writes.as_slice();
        let access = AccessType::TransferWrite;
        mark_writes(&mut self.transfers, alloc, cells, writes, access, value)?;
        let reads = touches.reads.as_slice();
        mark_reads(&mut self.transfer_reads, alloc, cells, reads, value)?;
        Ok(())
    }

    // Marks what command number `n`, a build or a property, read and wrote.
    fn mark_build(
        &mut self,
        alloc: Global,
        n: u32,
        touches: &Touches,
        cells: &Cells,
    ) -> Result<(), NoMemory>
        requires number { n + 1 < 2 ^ 32 }
        requires below { LanesBelow (length cells.now) (n + 1) self.old }
        ensures { OnOk result (MarksNext n (Some Build) touches.now cells.now self.old self.new) }
    {
        let value = n + 1;
        let writes = touches.writes.as_slice();
        let structures = AccessType::StructureWrite;
        let bytes = AccessType::TransferWrite;
        mark_writes(&mut self.builds, alloc, cells, writes, structures, value)?;
        mark_writes(&mut self.properties, alloc, cells, writes, bytes, value)?;
        let reads = touches.reads.as_slice();
        mark_reads(&mut self.build_reads, alloc, cells, reads, value)?;
        Ok(())
    }

    // Marks what command number `n`, a copy of a structure, read and wrote.
    fn mark_copy(
        &mut self,
        alloc: Global,
        n: u32,
        touches: &Touches,
        cells: &Cells,
    ) -> Result<(), NoMemory>
        requires number { n + 1 < 2 ^ 32 }
        requires below { LanesBelow (length cells.now) (n + 1) self.old }
        ensures { OnOk result (MarksNext n (Some StructureCopy) touches.now cells.now self.old self.new) }
    {
        let value = n + 1;
        let writes = touches.writes.as_slice();
        let structures = AccessType::StructureWrite;
        let bytes = AccessType::TransferWrite;
        mark_writes(&mut self.copies, alloc, cells, writes, structures, value)?;
        mark_writes(&mut self.serialized, alloc, cells, writes, bytes, value)?;
        let reads = touches.reads.as_slice();
        mark_reads(&mut self.copy_reads, alloc, cells, reads, value)?;
        Ok(())
    }

    // Marks what command number `n`, a trace, read and wrote.
    fn mark_trace(
        &mut self,
        alloc: Global,
        n: u32,
        touches: &Touches,
        cells: &Cells,
    ) -> Result<(), NoMemory>
        requires number { n + 1 < 2 ^ 32 }
        requires below { LanesBelow (length cells.now) (n + 1) self.old }
        ensures { OnOk result (MarksNext n (Some Compute) touches.now cells.now self.old self.new) }
    {
        let value = n + 1;
        let writes = touches.writes.as_slice();
        let access = AccessType::ShaderWrite;
        mark_writes(&mut self.traces, alloc, cells, writes, access, value)?;
        let reads = touches.reads.as_slice();
        mark_reads(&mut self.trace_reads, alloc, cells, reads, value)?;
        Ok(())
    }

    /// Marks what command number `n`, of a stage where it counts, read and wrote.
    ///
    /// # Errors
    ///
    /// For want of memory alone.
    pub fn mark(
        &mut self,
        alloc: Global,
        n: u32,
        stage: Option<Stage>,
        touches: &Touches,
        cells: &Cells,
    ) -> Result<(), NoMemory>
        requires number { n + 1 < 2 ^ 32 }
        requires below { LanesBelow (length cells.now) (n + 1) self.old }
        ensures { OnOk result (MarksNext n stage touches.now cells.now self.old self.new) }
    {
        match stage {
            Some(stage) => self.mark_at(alloc, n, stage, touches, cells),
            None => Ok(()),
        }
    }

    // Marks what command number `n`, of this stage, read and wrote.
    fn mark_at(
        &mut self,
        alloc: Global,
        n: u32,
        stage: Stage,
        touches: &Touches,
        cells: &Cells,
    ) -> Result<(), NoMemory>
        requires number { n + 1 < 2 ^ 32 }
        requires below { LanesBelow (length cells.now) (n + 1) self.old }
        ensures { OnOk result (MarksNext n (Some stage) touches.now cells.now self.old self.new) }
    {
        match stage {
            Stage::Transfer => self.mark_transfer(alloc, n, touches, cells),
            Stage::Build => self.mark_build(alloc, n, touches, cells),
            Stage::StructureCopy => self.mark_copy(alloc, n, touches, cells),
            Stage::Compute => self.mark_trace(alloc, n, touches, cells),
            Stage::Host => Ok(()),
        }
    }
}
