use ray_top::Instance;

/// A geometry as an instance places it in the world. (Own.)
#[derive(Clone, Copy)]
pub struct Placed<'a> {
    /// The instance's number in its top structure.
    pub number: u32,
    /// The instance, which is active.
    pub instance: &'a Instance,
    /// The geometry's number in the instance's structure.
    pub geometry: u32,
    /// Whether its primitives count as opaque.
    pub opaque: bool,
}
