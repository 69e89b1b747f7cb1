use ray_geom::Frac;

/// By what the candidates of a ray are ordered: the distance, by value, then the three numbers. Two
/// candidates of one ray never have equal keys. (Own: Vulkan leaves the order open.)
#[derive(Clone, Copy, Debug, PartialEq, Eq, PartialOrd, Ord)]
pub struct Key {
    /// The distance.
    pub t: Frac,
    /// The instance's number in its top structure.
    pub instance: u32,
    /// The geometry's number in its bottom structure.
    pub geometry: u32,
    /// The primitive's number in its geometry.
    pub primitive: u32,
}
