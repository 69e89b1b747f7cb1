ghost use Rattle.std.specs.Prelude.{◌≡◌};
ghost use Rattle.ray_flags.specs.Flags.{Input, Scratch, Storage, Structure, TransferDst, TransferSrc};
ghost use Rattle.ray_rules.specs.Buffers.{is_private, is_private_at, lacks_usage};
ghost use Rattle.ray_status.specs.Parts.{lacks_bits};

use crate::status::Status;
use bitflags::Flags;
use ray_flags::Usage;

/// Whether the buffer of an id isn't for the input of builds. One that isn't live lacks no usage.
/// Own.
pub fn lacks_input(status: &Status, id: u32) -> bool
    ensures { result ≡ lacks_usage status.now Input id }
{
    lacks(status, id, Usage::INPUT)
}

/// Whether the buffer of an id isn't for scratch memory. Own.
pub fn lacks_scratch(status: &Status, id: u32) -> bool
    ensures { result ≡ lacks_usage status.now Scratch id }
{
    lacks(status, id, Usage::SCRATCH)
}

/// Whether the buffer of an id isn't for rays and hits. Own.
pub fn lacks_storage(status: &Status, id: u32) -> bool
    ensures { result ≡ lacks_usage status.now Storage id }
{
    lacks(status, id, Usage::STORAGE)
}

/// Whether the buffer of an id isn't for structures. Own.
pub fn lacks_structures(status: &Status, id: u32) -> bool
    ensures { result ≡ lacks_usage status.now Structure id }
{
    lacks(status, id, Usage::STRUCTURE)
}

/// Whether the buffer of an id isn't for what transfers write. Own.
pub fn lacks_transfer_dst(status: &Status, id: u32) -> bool
    ensures { result ≡ lacks_usage status.now TransferDst id }
{
    lacks(status, id, Usage::TRANSFER_DST)
}

/// Whether the buffer of an id isn't for what transfers read. Own.
pub fn lacks_transfer_src(status: &Status, id: u32) -> bool
    ensures { result ≡ lacks_usage status.now TransferSrc id }
{
    lacks(status, id, Usage::TRANSFER_SRC)
}

// Whether the buffer of an id lacks a usage. One that isn't live lacks none.
fn lacks(status: &Status, id: u32, usage: Usage) -> bool
    ensures { result ≡ lacks_bits status.now usage.0 id }
{
    match status.buffer(id) {
        Some(buffer) => !buffer.usage.contains(usage),
        None => false,
    }
}

/// Whether a usage is for scratch memory, or for structures. Own.
pub fn is_private(usage: Usage) -> bool
    ensures { result ≡ is_private usage }
{
    usage.contains(Usage::SCRATCH) || usage.contains(Usage::STRUCTURE)
}

/// Whether a usage of the buffer of an id is private. Own.
pub fn is_private_at(status: &Status, id: u32) -> bool
    ensures { result ≡ is_private_at status.now id }
{
    match status.buffer(id) {
        Some(buffer) => is_private(buffer.usage),
        None => false,
    }
}
