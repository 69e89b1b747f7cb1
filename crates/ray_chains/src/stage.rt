/// A stage at which a command reads and writes. (Vulkan: VkPipelineStageFlagBits.)
#[derive(Clone, Copy, Debug, PartialEq, Eq)]
pub enum Stage {
    /// Updates, fills and copies of buffers.
    Transfer,
    /// Builds and properties of structures.
    Build,
    /// Copies and serializations of structures.
    StructureCopy,
    /// Traces.
    Compute,
    /// Accesses of the host.
    Host,
}
