use std::cmp::Ordering;

// What the test of a triangle needs of one of its edges.
#[derive(Clone, Copy)]
pub(crate) struct Edge {
    // The edge's volume with the ray's direction.
    pub(crate) volume: i64,
    // The edge's side, with all ties broken.
    pub(crate) side: Ordering,
}
