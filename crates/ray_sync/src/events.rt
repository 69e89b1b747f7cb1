ghost use Rattle.std.specs.Prelude.{◌≡◌};
ghost use Rattle.ray_sync.specs.Events.{access_mask, barrier_of, chain_access, chain_stage, stage_mask};

use crate::sets::{holds_access, holds_stage};
use ray_chains::{AccessMask, MemoryBarrier, StageMask};
use ray_cmd::{Access, Stages};
use ray_rules::{AccessType, Stage};

/// A stage in the words of dependency chains.
pub fn chain_stage(stage: Stage) -> ray_chains::Stage
    ensures { result ≡ chain_stage stage }
{
    match stage {
        Stage::Transfer => ray_chains::Stage::Transfer,
        Stage::Build => ray_chains::Stage::Build,
        Stage::StructureCopy => ray_chains::Stage::StructureCopy,
        Stage::Compute => ray_chains::Stage::Compute,
        Stage::Host => ray_chains::Stage::Host,
    }
}

/// An access in the words of dependency chains.
pub fn chain_access(access: AccessType) -> ray_chains::AccessType
    ensures { result ≡ chain_access access }
{
    match access {
        AccessType::TransferRead => ray_chains::AccessType::TransferRead,
        AccessType::TransferWrite => ray_chains::AccessType::TransferWrite,
        AccessType::ShaderRead => ray_chains::AccessType::ShaderRead,
        AccessType::ShaderWrite => ray_chains::AccessType::ShaderWrite,
        AccessType::StructureRead => ray_chains::AccessType::StructureRead,
        AccessType::StructureWrite => ray_chains::AccessType::StructureWrite,
        AccessType::HostRead => ray_chains::AccessType::HostRead,
        AccessType::HostWrite => ray_chains::AccessType::HostWrite,
    }
}

// The stages of a barrier.
fn stage_mask(stages: Stages) -> StageMask
    ensures { result ≡ stage_mask stages }
{
    StageMask {
        transfer: holds_stage(stages, Stage::Transfer),
        build: holds_stage(stages, Stage::Build),
        structure_copy: holds_stage(stages, Stage::StructureCopy),
        compute: holds_stage(stages, Stage::Compute),
        host: holds_stage(stages, Stage::Host),
    }
}

// The accesses of a barrier.
fn access_mask(access: Access) -> AccessMask
    ensures { result ≡ access_mask access }
{
    AccessMask {
        transfer_read: holds_access(access, AccessType::TransferRead),
        transfer_write: holds_access(access, AccessType::TransferWrite),
        shader_read: holds_access(access, AccessType::ShaderRead),
        shader_write: holds_access(access, AccessType::ShaderWrite),
        structure_read: holds_access(access, AccessType::StructureRead),
        structure_write: holds_access(access, AccessType::StructureWrite),
        host_read: holds_access(access, AccessType::HostRead),
        host_write: holds_access(access, AccessType::HostWrite),
    }
}

/// A barrier in the words of dependency chains.
pub fn barrier_of(
    src_stages: Stages,
    src_access: Access,
    dst_stages: Stages,
    dst_access: Access,
) -> MemoryBarrier
    ensures { result ≡ barrier_of src_stages src_access dst_stages dst_access }
{
    MemoryBarrier {
        src_stages: stage_mask(src_stages),
        src_access: access_mask(src_access),
        dst_stages: stage_mask(dst_stages),
        dst_access: access_mask(dst_access),
    }
}
