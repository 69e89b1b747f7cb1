/// How a geometry of boxes is to be read. (VkAccelerationStructureGeometryAabbsDataKHR and
/// VkAccelerationStructureBuildRangeInfoKHR)
#[derive(Clone, Copy, Debug)]
pub struct BoxInfo {
    /// Whether the boxes are opaque. (VK_GEOMETRY_OPAQUE_BIT_KHR)
    pub opaque: bool,
    /// How many boxes there are.
    pub count: u32,
}
