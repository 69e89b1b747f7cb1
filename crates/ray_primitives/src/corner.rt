use ray_geom::Point32;

// A corner of a triangle: an index value and the vertex that it names, as it stands in the buffer.
#[derive(Clone, Copy)]
pub(crate) struct Corner {
    pub(crate) index: u32,
    pub(crate) at: Point32,
}
