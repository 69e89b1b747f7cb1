use ray_cmd::StructureKind;

/// What a live structure is. (Vulkan: VkAccelerationStructureCreateInfoKHR.)
#[derive(Clone, Copy, Debug, PartialEq, Eq)]
pub struct Form {
    /// Whether it is a bottom or a top structure.
    pub kind: StructureKind,
    /// The size with which it was made, in bytes.
    pub size: u64,
}
