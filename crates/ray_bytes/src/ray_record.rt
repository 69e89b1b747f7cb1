/// A ray as it stands in 40 bytes. (The operands of OpRayQueryInitializeKHR, in whole numbers; the
/// layout is our own.)
#[derive(Clone, Copy, Debug, PartialEq, Eq)]
pub struct RayRecord {
    /// Where the ray begins.
    pub origin: [i32; 3],
    /// Its direction.
    pub dir: [i32; 3],
    /// The least distance, in 1/65536.
    pub tmin: u64,
    /// The greatest distance, in 1/65536.
    pub tmax: u64,
}
