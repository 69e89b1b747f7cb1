// On one axis, the distances at which a ray is between two ends: from near / size to far / size. Where
// size is 0, all distances, if near isn't above 0 and far isn't below 0, else none.
#[derive(Clone, Copy)]
pub(crate) struct Slab {
    pub(crate) near: i64,
    pub(crate) far: i64,
    pub(crate) size: u64,
}
