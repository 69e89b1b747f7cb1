/// A way to read or to write memory. (Vulkan: VkAccessFlagBits.)
#[derive(Clone, Copy, Debug, PartialEq, Eq)]
pub enum AccessType {
    /// Reads of the sources of copies, and of what is deserialized.
    TransferRead,
    /// Writes of updates, fills and copies, of serialized bytes and of properties.
    TransferWrite,
    /// Reads of rays by traces, and of the input of builds.
    ShaderRead,
    /// Writes of hits by traces.
    ShaderWrite,
    /// Reads of structures, and of scratch memory.
    StructureRead,
    /// Writes of structures, and of scratch memory.
    StructureWrite,
    /// Reads by the host.
    HostRead,
    /// Writes by the host.
    HostWrite,
}
