use crate::built::Built;
use ray_cmd::StructureKind;

/// A live structure, as far as rules speak of it. (Vulkan: VkAccelerationStructureKHR.)
#[derive(Clone, Copy, Debug, PartialEq, Eq)]
pub struct LiveStructure {
    /// The number of the command that made it: a structure made anew under an old id is another
    /// thing.
    pub made: u32,
    /// Whether it is a bottom or a top structure.
    pub kind: StructureKind,
    /// The id of the buffer in which it stands.
    pub buffer: u32,
    /// Where it begins in the buffer, in bytes.
    pub offset: u64,
    /// How many bytes it has.
    pub size: u64,
    /// What it was built by, where it is built.
    pub built: Option<Built>,
}
