/// A stage at which a command reads and writes. (Vulkan: VkPipelineStageFlagBits; `all` of a barrier
/// stands for the first four.)
#[derive(Clone, Copy, Debug, PartialEq, Eq)]
pub enum Stage {
    /// Updates, fills and copies of buffers.
    Transfer,
    /// Builds, updates and properties of structures.
    Build,
    /// Copies, serializations and deserializations of structures.
    StructureCopy,
    /// Traces.
    Compute,
    /// Accesses of the host.
    Host,
}
