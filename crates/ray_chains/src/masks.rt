ghost use Rattle.std.specs.Prelude.{◌≡◌};
ghost use Rattle.ray_chains.specs.Tables.{has_access, has_stage, takes_at};

use crate::access_type::AccessType;
use crate::stage::Stage;

/// A set of stages. (Vulkan: VkPipelineStageFlags.)
#[derive(Clone, Copy, Debug, PartialEq, Eq)]
pub struct StageMask {
    /// Whether it has the stage of transfers.
    pub transfer: bool,
    /// Whether it has the stage of builds.
    pub build: bool,
    /// Whether it has the stage of copies of structures.
    pub structure_copy: bool,
    /// Whether it has the stage of traces.
    pub compute: bool,
    /// Whether it has the host.
    pub host: bool,
}

impl StageMask {
    /// Whether it has a stage.
    pub fn has(self, stage: Stage) -> bool
        ensures { result ≡ has_stage self stage }
    {
        match stage {
            Stage::Transfer => self.transfer,
            Stage::Build => self.build,
            Stage::StructureCopy => self.structure_copy,
            Stage::Compute => self.compute,
            Stage::Host => self.host,
        }
    }
}

/// A set of accesses. (Vulkan: VkAccessFlags.)
#[derive(Clone, Copy, Debug, PartialEq, Eq)]
pub struct AccessMask {
    /// Whether it has reads by transfers.
    pub transfer_read: bool,
    /// Whether it has writes by transfers.
    pub transfer_write: bool,
    /// Whether it has reads by traces, and of the input of builds.
    pub shader_read: bool,
    /// Whether it has writes by traces.
    pub shader_write: bool,
    /// Whether it has reads of structures.
    pub structure_read: bool,
    /// Whether it has writes of structures.
    pub structure_write: bool,
    /// Whether it has reads by the host.
    pub host_read: bool,
    /// Whether it has writes by the host.
    pub host_write: bool,
}

impl AccessMask {
    /// Whether it has an access.
    pub fn has(self, access: AccessType) -> bool
        ensures { result ≡ has_access self access }
    {
        match access {
            AccessType::TransferRead => self.transfer_read,
            AccessType::TransferWrite => self.transfer_write,
            AccessType::ShaderRead => self.shader_read,
            AccessType::ShaderWrite => self.shader_write,
            AccessType::StructureRead => self.structure_read,
            AccessType::StructureWrite => self.structure_write,
            AccessType::HostRead => self.host_read,
            AccessType::HostWrite => self.host_write,
        }
    }
}

/// What a barrier takes up and to what it hands on. (Vulkan: VkMemoryBarrier2.)
#[derive(Clone, Copy, Debug, PartialEq, Eq)]
pub struct MemoryBarrier {
    /// The stages that it takes up.
    pub src_stages: StageMask,
    /// The accesses whose writes it takes up.
    pub src_access: AccessMask,
    /// The stages to which it hands on.
    pub dst_stages: StageMask,
    /// The accesses to which it makes writes visible.
    pub dst_access: AccessMask,
}

impl MemoryBarrier {
    /// Whether it takes up directly, where it is on their queue, what commands did at a stage, or
    /// what they wrote there with an access.
    pub fn takes(&self, stage: Stage, access: Option<AccessType>) -> bool
        ensures { result ≡ takes_at self.now stage access }
    {
        match access {
            Some(access) => self.src_stages.has(stage) && self.src_access.has(access),
            None => self.src_stages.has(stage),
        }
    }
}
