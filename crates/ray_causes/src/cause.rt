use crate::member::{Member, Name};
use ray_rules::ByteRange;

/// One use of a buffer. (Vulkan: VkBufferUsageFlagBits.)
#[derive(Clone, Copy, Debug)]
pub enum BufferUse {
    /// `input`.
    Input,
    /// `storage`.
    Storage,
    /// `transfer_src`.
    TransferSrc,
    /// `transfer_dst`.
    TransferDst,
    /// `scratch`.
    Scratch,
    /// `structure`.
    Structure,
}

/// A number that has to be a multiple of another. Own.
#[derive(Clone, Copy, Debug)]
pub struct Multiple {
    /// The number.
    pub number: u64,
    /// Of what it has to be a multiple.
    pub of: u64,
}

/// By what a command breaks a static rule: a member of it, and what was compared. Own.
#[derive(Clone, Copy, Debug)]
pub enum Cause {
    /// The member names a buffer, and none is live under the id.
    NoBuffer(Member, u32),
    /// The member names a structure, and none is live under the id.
    NoStructure(Member, u32),
    /// The member is the id of a new buffer, and one is live under it.
    BufferThere(Name, u32),
    /// The member is the id of a new structure, and one is live under it.
    StructureThere(Name, u32),
    /// The member names a buffer that may not be used as the command needs.
    Unusable(Member, u32, BufferUse),
    /// The bytes that the member needs aren't whole within their buffer, of which the size is told.
    Outside(Member, ByteRange, u64),
    /// The member misses its alignment.
    Misaligned(Member, Multiple),
}
