ghost use Rattle.std.specs.Prelude.{◌≡◌};
ghost use Rattle.ray_chains.specs.Overriding.{current_front, current_table, led, override_after};
ghost use Rattle.ray_chains.specs.Overriding.{own_front, own_table, refreshed, since_front};
ghost use Rattle.ray_chains.specs.Passing.{IsLimit, KeptPassesBarrier, TellsCovered};
ghost use Rattle.ray_chains.specs.Tables.{front_at};

use crate::access_type::AccessType;
use crate::chains::Chains;
use crate::front::Front;
use crate::masks::MemoryBarrier;
use crate::stage::Stage;
use crate::table::Table;

/// What is kept of a buffer, for one source and queue, in place of the fronts of everything: those
/// that it had just after the last barrier that was limited to it.
#[derive(Clone, Copy, Debug, PartialEq, Eq)]
pub struct Override {
    /// The number of that barrier.
    pub barrier: u32,
    /// The fronts just after it.
    pub table: Table,
}

impl Override {
    // The greatest of its numbers at the stages from which a chain has led to a stage since.
    fn led(&self, chains: &Chains, access: Option<AccessType>) -> Front
        ensures { result ≡ led self.now chains.now access }
    {
        let t = self.barrier;
        let stages = self.table.stages;
        let transfer = chains.transfer.fronts(access).above(t, stages.transfer);
        let build = chains.build.fronts(access).above(t, stages.build);
        let copies = chains
            .structure_copy
            .fronts(access)
            .above(t, stages.structure_copy);
        let compute = chains.compute.fronts(access).above(t, stages.compute);
        let host = chains.host.fronts(access).above(t, stages.host);
        transfer.max(build.max(copies.max(compute.max(host))))
    }

    // The buffer's fronts: at each stage the greatest of that of everything, its own old one, and
    // what chains have led there since.
    fn since(&self, all: &Table, chains: &Chains, access: Option<AccessType>) -> Front
        ensures { result ≡ since_front all.now self.now chains.now access }
    {
        let old = self.table.fronts(access);
        all.fronts(access).max(old.max(self.led(chains, access)))
    }

    // All of the buffer's fronts.
    fn refreshed(&self, all: &Table, chains: &Chains) -> Table
        ensures { result ≡ refreshed all.now self.now chains.now }
    {
        Table {
            stages: self.since(all, chains, None),
            transfer_read: self.since(all, chains, Some(AccessType::TransferRead)),
            transfer_write: self.since(all, chains, Some(AccessType::TransferWrite)),
            shader_read: self.since(all, chains, Some(AccessType::ShaderRead)),
            shader_write: self.since(all, chains, Some(AccessType::ShaderWrite)),
            structure_read: self.since(all, chains, Some(AccessType::StructureRead)),
            structure_write: self.since(all, chains, Some(AccessType::StructureWrite)),
            host_read: self.since(all, chains, Some(AccessType::HostRead)),
            host_write: self.since(all, chains, Some(AccessType::HostWrite)),
        }
    }

    // All of the buffer's fronts. What is kept is right as it is where no chain was led on since.
    fn current(&self, all: &Table, chains: &Chains) -> Table
        ensures { result ≡ current_table all.now self.now chains.now }
    {
        if chains.last <= self.barrier {
            self.table
        } else {
            self.refreshed(all, chains)
        }
    }

    // Its fronts of an access.
    fn current_front(&self, all: &Table, chains: &Chains, access: AccessType) -> Front
        ensures { result ≡ current_front all.now self.now chains.now access }
    {
        if chains.last <= self.barrier {
            self.table.visible(access)
        } else {
            self.since(all, chains, Some(access))
        }
    }
}

// A buffer's fronts, which are those of everything where nothing is kept.
fn own_table(all: &Table, kept: &Option<Override>, chains: &Chains) -> Table
    ensures { result ≡ own_table all.now kept.now chains.now }
{
    match kept {
        Some(over) => over.current(all, chains),
        None => *all,
    }
}

// Its fronts of an access.
fn own_front(all: &Table, kept: &Option<Override>, chains: &Chains, access: AccessType) -> Front
    ensures { result ≡ own_front all.now kept.now chains.now access }
{
    match kept {
        Some(over) => over.current_front(all, chains, access),
        None => all.visible(access),
    }
}

// Its number at a stage, as a value.
fn own_number(
    all: &Table,
    kept: &Option<Override>,
    chains: &Chains,
    stage: Stage,
    access: AccessType,
) -> u32
    ensures { result ≡ front_at (own_front all.now kept.now chains.now access) stage }
{
    own_front(all, kept, chains, access).at(stage)
}

/// Below which number what a source wrote to a buffer is covered to an access at a stage: by the
/// fronts of everything, what is kept of the buffer, and the chains of the queue.
pub fn limit(
    all: &Table,
    kept: &Option<Override>,
    chains: &Chains,
    stage: Stage,
    access: AccessType,
) -> u32
    ensures front { IsLimit all.now kept.now chains.now stage access result }
    ensures covered { TellsCovered all.now kept.now chains.now stage access result }
{
    own_number(all, kept, chains, stage, access)
}

// What is kept after a barrier that is limited to the buffer, as a value.
fn override_after(
    all: &Table,
    kept: &Option<Override>,
    chains: &Chains,
    direct: bool,
    n: u32,
    barrier: &MemoryBarrier,
) -> Override
    ensures { result ≡ override_after all.now kept.now chains.now direct n barrier.now }
{
    Override {
        barrier: n,
        table: own_table(all, kept, chains).barrier(direct, n, barrier),
    }
}

/// What is kept of a buffer after a barrier of the queue that is limited to it, command number `n`.
/// `direct` says that the barrier takes up directly what the source wrote.
pub fn limited(
    all: &Table,
    kept: &Option<Override>,
    chains: &Chains,
    direct: bool,
    n: u32,
    barrier: &MemoryBarrier,
) -> Override
    ensures kept { KeptPassesBarrier all.now kept.now chains.now direct n barrier.now result }
{
    override_after(all, kept, chains, direct, n, barrier)
}
