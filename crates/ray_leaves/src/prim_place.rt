/// Which primitive of a structure: the number of its geometry, and its number in it.
#[derive(Clone, Copy, Debug)]
pub struct PrimPlace {
    /// The geometry's number.
    pub geometry: u32,
    /// The primitive's number in its geometry.
    pub primitive: u32,
}
