use ray_flags::InstanceFlags;
use ray_geom::Matrix;

/// An instance of a top structure, as it is told. An inactive one has the identity as its matrix,
/// and zeros. (VkAccelerationStructureInstanceKHR)
#[derive(Clone, Copy, Debug)]
pub struct Instance {
    /// Whether it is active. An inactive one is met by no ray.
    pub active: bool,
    /// The transform from the space of its structure into the world.
    pub matrix: Matrix,
    /// The custom index, below 2^24.
    pub custom: u32,
    /// The mask that is met with a trace's cull mask.
    pub mask: u8,
    /// The binding-table offset, below 2^24.
    pub sbt: u32,
    /// Facing and opacity: the four flags of VkGeometryInstanceFlagBitsKHR.
    pub flags: InstanceFlags,
    /// The id of its bottom structure.
    pub id: u32,
}
