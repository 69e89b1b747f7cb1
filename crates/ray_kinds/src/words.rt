/// A flag of a ray that excludes others. (SPIR-V: Ray Flags.)
#[derive(Clone, Copy, Debug)]
pub enum RayWord {
    /// `opaque`.
    Opaque,
    /// `no_opaque`.
    NoOpaque,
    /// `cull_opaque`.
    CullOpaque,
    /// `cull_no_opaque`.
    CullNoOpaque,
    /// `skip_triangles`.
    SkipTriangles,
    /// `cull_back_facing`.
    CullBackFacing,
    /// `cull_front_facing`.
    CullFrontFacing,
    /// `skip_aabbs`.
    SkipAabbs,
}

/// An access of a barrier. (Vulkan: VkAccessFlagBits.)
#[derive(Clone, Copy, Debug)]
pub enum AccessWord {
    /// `transfer_read`.
    TransferRead,
    /// `transfer_write`.
    TransferWrite,
    /// `shader_read`.
    ShaderRead,
    /// `shader_write`.
    ShaderWrite,
    /// `structure_read`.
    StructureRead,
    /// `structure_write`.
    StructureWrite,
    /// `host_read`.
    HostRead,
    /// `host_write`.
    HostWrite,
    /// `memory_read`.
    MemoryRead,
    /// `memory_write`.
    MemoryWrite,
}
