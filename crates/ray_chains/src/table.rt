ghost use Rattle.std.specs.Prelude.{◌≡◌, Some};
ghost use Rattle.ray_chains.specs.Passing.{AllPassesBarrier, TableBegins, TablePassesBarrier};
ghost use Rattle.ray_chains.specs.Passing.{TablePassesBegin, TablePassesWait, TellsTable};
ghost use Rattle.ray_chains.specs.Tables.{all_barrier, front_at, no_table, pair_barrier, table_at};
ghost use Rattle.ray_chains.specs.Tables.{table_barrier, table_on_device};

use crate::access_type::AccessType;
use crate::front::Front;
use crate::masks::MemoryBarrier;
use crate::stage::Stage;

/// The fronts of one source at a queue: at each stage, and for each access at each stage.
#[derive(Clone, Copy, Debug, PartialEq, Eq)]
pub struct Table {
    /// At the stages, which order.
    pub stages: Front,
    /// To reads by transfers.
    pub transfer_read: Front,
    /// To writes by transfers.
    pub transfer_write: Front,
    /// To reads by traces, and of the input of builds.
    pub shader_read: Front,
    /// To writes by traces.
    pub shader_write: Front,
    /// To reads of structures.
    pub structure_read: Front,
    /// To writes of structures.
    pub structure_write: Front,
    /// To reads by the host.
    pub host_read: Front,
    /// To writes by the host.
    pub host_write: Front,
}

impl Table {
    /// Nothing has been handed on.
    pub fn none() -> Table
        ensures value { result ≡ no_table }
        ensures first { TableBegins result }
    {
        Table {
            stages: Front::none(),
            transfer_read: Front::none(),
            transfer_write: Front::none(),
            shader_read: Front::none(),
            shader_write: Front::none(),
            structure_read: Front::none(),
            structure_write: Front::none(),
            host_read: Front::none(),
            host_write: Front::none(),
        }
    }

    /// The fronts of an access.
    pub fn visible(self, access: AccessType) -> Front
        ensures { result ≡ table_at self (Some access) }
    {
        match access {
            AccessType::TransferRead => self.transfer_read,
            AccessType::TransferWrite => self.transfer_write,
            AccessType::ShaderRead => self.shader_read,
            AccessType::ShaderWrite => self.shader_write,
            AccessType::StructureRead => self.structure_read,
            AccessType::StructureWrite => self.structure_write,
            AccessType::HostRead => self.host_read,
            AccessType::HostWrite => self.host_write,
        }
    }

    /// Below which number what was written is visible to an access at a stage.
    pub fn limit(self, stage: Stage, access: AccessType) -> u32
        ensures value { result ≡ front_at (table_at self (Some access)) stage }
        ensures tells { TellsTable self stage access result }
    {
        self.visible_at(stage, access)
    }

    // The same, as a value.
    fn visible_at(self, stage: Stage, access: AccessType) -> u32
        ensures { result ≡ front_at (table_at self (Some access)) stage }
    {
        self.visible(access).at(stage)
    }

    // The fronts of an access, or those at the stages.
    pub(crate) fn fronts(self, access: Option<AccessType>) -> Front
        ensures { result ≡ table_at self access }
    {
        match access {
            Some(access) => self.visible(access),
            None => self.stages,
        }
    }

    /// The fronts of everything after a barrier of the queue, command number `n`. One that is
    /// limited to buffers leaves them as they are.
    pub fn barrier_on_all(
        self,
        limited: bool,
        direct: bool,
        n: u32,
        barrier: &MemoryBarrier,
    ) -> Table
        ensures next { AllPassesBarrier limited direct n barrier.now self result }
    {
        self.handed_if(limited, direct, n, barrier)
    }

    // The same unless the barrier is limited, as a value.
    fn handed_if(self, limited: bool, direct: bool, n: u32, barrier: &MemoryBarrier) -> Table
        ensures { result ≡ all_barrier limited direct n barrier.now self }
    {
        if limited {
            self
        } else {
            self.handed(direct, n, barrier)
        }
    }

    /// The fronts of a thing after a barrier of the queue that acts on it, command number `n`.
    /// `direct` says that it takes up directly what the source did.
    pub fn barrier(self, direct: bool, n: u32, barrier: &MemoryBarrier) -> Table
        ensures value { result ≡ table_barrier direct n barrier.now self }
        ensures next { TablePassesBarrier direct n barrier.now self result }
    {
        self.handed(direct, n, barrier)
    }

    // The same after a barrier, as a value.
    fn handed(self, direct: bool, n: u32, barrier: &MemoryBarrier) -> Table
        ensures { result ≡ table_barrier direct n barrier.now self }
    {
        let number = self.stages.taken_up(direct, n, barrier.src_stages);
        Table {
            stages: self.stages.raised(barrier.dst_stages, number),
            transfer_read: self.pair(number, barrier, AccessType::TransferRead),
            transfer_write: self.pair(number, barrier, AccessType::TransferWrite),
            shader_read: self.pair(number, barrier, AccessType::ShaderRead),
            shader_write: self.pair(number, barrier, AccessType::ShaderWrite),
            structure_read: self.pair(number, barrier, AccessType::StructureRead),
            structure_write: self.pair(number, barrier, AccessType::StructureWrite),
            host_read: self.pair(number, barrier, AccessType::HostRead),
            host_write: self.pair(number, barrier, AccessType::HostWrite),
        }
    }

    // The fronts of an access after a barrier that takes up what was done below a number.
    fn pair(self, number: u32, barrier: &MemoryBarrier, access: AccessType) -> Front
        ensures { result ≡ pair_barrier number barrier.now self access }
    {
        if barrier.dst_access.has(access) {
            self.visible(access).raised(barrier.dst_stages, number)
        } else {
            self.visible(access)
        }
    }

    /// The same once what was done below a number has reached all that the device does. After a
    /// `wait` the number is its own, and after the begin of a submission the greatest of the fronts
    /// at the signals that meet its waits.
    pub fn on_device(self, number: u32) -> Table
        ensures value { result ≡ table_on_device number self }
        ensures wait { TablePassesWait number self result }
        ensures begin { TablePassesBegin number self result }
    {
        self.device(number)
    }

    // The same at the device, as a value.
    fn device(self, number: u32) -> Table
        ensures { result ≡ table_on_device number self }
    {
        Table {
            stages: self.stages.device(number),
            transfer_read: self.transfer_read.device(number),
            transfer_write: self.transfer_write.device(number),
            shader_read: self.shader_read.device(number),
            shader_write: self.shader_write.device(number),
            structure_read: self.structure_read.device(number),
            structure_write: self.structure_write.device(number),
            host_read: self.host_read.device(number),
            host_write: self.host_write.device(number),
        }
    }
}
