/// The kind of a primitive. (Vulkan: VkGeometryTypeKHR, without instances.)
#[derive(Clone, Copy, Debug, PartialEq, Eq)]
pub enum Kind {
    /// A triangle. (VK_GEOMETRY_TYPE_TRIANGLES_KHR.)
    Triangle,
    /// An axis-aligned box. (VK_GEOMETRY_TYPE_AABBS_KHR.)
    Aabb,
}
