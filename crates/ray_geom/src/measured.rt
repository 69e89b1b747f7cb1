use crate::edge::Edge;

// All that the test of a triangle computes of a ray and a triangle before it decides.
#[derive(Clone, Copy)]
pub(crate) struct Measured {
    // The edge from the triangle's second vertex to its third, whose weight belongs to the first.
    pub(crate) first: Edge,
    // The edge from the third vertex to the first.
    pub(crate) second: Edge,
    // The edge from the first vertex to the second.
    pub(crate) third: Edge,
    // The distance is num / den.
    pub(crate) num: i64,
    pub(crate) den: i64,
}
