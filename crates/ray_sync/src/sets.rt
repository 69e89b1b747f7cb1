ghost use Rattle.std.specs.Prelude.{◌≡◌};
ghost use Rattle.ray_rules.specs.Order.{holds_access, holds_stage};
ghost use Rattle.ray_sync.specs.Fronts.{has_or_all_reads, has_or_all_writes};

use bitflags::Flags;
use ray_cmd::{Access, Stages};
use ray_rules::{AccessType, Stage};

/// Whether a set of stages of a barrier holds a stage. `all` holds the four of the device.
pub fn holds_stage(stages: Stages, stage: Stage) -> bool
    ensures { result ≡ holds_stage stages stage }
{
    match stage {
        Stage::Transfer => stages.contains(Stages::TRANSFER),
        Stage::Build => stages.contains(Stages::BUILD),
        Stage::StructureCopy => stages.contains(Stages::STRUCTURE_COPY),
        Stage::Compute => stages.contains(Stages::COMPUTE),
        Stage::Host => stages.contains(Stages::HOST),
    }
}

/// Whether a set of accesses of a barrier holds an access. `memory_read` holds every read, and
/// `memory_write` every write.
pub fn holds_access(accesses: Access, access: AccessType) -> bool
    ensures { result ≡ holds_access accesses access }
{
    match access {
        AccessType::TransferRead => holds_read(accesses, Access::TRANSFER_READ),
        AccessType::TransferWrite => holds_write(accesses, Access::TRANSFER_WRITE),
        AccessType::ShaderRead => holds_read(accesses, Access::SHADER_READ),
        AccessType::ShaderWrite => holds_write(accesses, Access::SHADER_WRITE),
        AccessType::StructureRead => holds_read(accesses, Access::STRUCTURE_READ),
        AccessType::StructureWrite => holds_write(accesses, Access::STRUCTURE_WRITE),
        AccessType::HostRead => holds_read(accesses, Access::HOST_READ),
        AccessType::HostWrite => holds_write(accesses, Access::HOST_WRITE),
    }
}

// Whether a set of accesses has this read, or every read.
fn holds_read(accesses: Access, read: Access) -> bool
    ensures { result ≡ has_or_all_reads accesses.0 read.0 }
{
    accesses.contains(read) || accesses.contains(Access::MEMORY_READ)
}

// Whether a set of accesses has this write, or every write.
fn holds_write(accesses: Access, write: Access) -> bool
    ensures { result ≡ has_or_all_writes accesses.0 write.0 }
{
    accesses.contains(write) || accesses.contains(Access::MEMORY_WRITE)
}
