use ray_geom::Box3;

/// A bottom structure that instances may refer to, and the bounds of its active primitives, if it
/// has any. (Own: the structures are named beside the build.)
#[derive(Clone, Copy, Debug)]
pub struct Used {
    /// The id of the structure.
    pub id: u32,
    /// The least box of its active primitives. None where there is none.
    pub bounds: Option<Box3>,
}
