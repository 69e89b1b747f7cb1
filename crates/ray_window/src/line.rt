use ray_geom::Vec3;

// The line of a ray in an object's space: it begins at origin / det and goes along dir / det.
#[derive(Clone, Copy)]
pub(crate) struct Line {
    pub(crate) det: u64,
    pub(crate) origin: Vec3,
    pub(crate) dir: Vec3,
}
