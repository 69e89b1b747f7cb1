use ray_bytes::Format;

/// How a geometry of triangles is to be read. (VkAccelerationStructureGeometryTrianglesDataKHR and
/// VkAccelerationStructureBuildRangeInfoKHR)
#[derive(Clone, Copy, Debug)]
pub struct TriangleInfo {
    /// Whether the triangles are opaque. (VK_GEOMETRY_OPAQUE_BIT_KHR)
    pub opaque: bool,
    /// The format of the vertices.
    pub format: Format,
    /// How many bytes an index has: 0 where there are none, else 2 or 4.
    pub index_size: u8,
    /// How many triangles there are.
    pub count: u32,
    /// Is added to each index, or without indices counts the vertices that are skipped.
    pub first_vertex: u32,
    /// The greatest index value, before `first_vertex` is added.
    pub max_vertex: u32,
}
