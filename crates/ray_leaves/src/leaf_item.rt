use crate::prim_place::PrimPlace;
use ray_geom::Point32;

/// A primitive at a leaf of the tree: its place, and a copy of its points, which stands beside
/// those of the leaf's other primitives, so that a walk finds them together. (Own.)
#[derive(Clone, Copy, Debug)]
pub struct LeafItem {
    /// Where the primitive stands in its structure.
    pub place: PrimPlace,
    /// Its points.
    pub points: ItemPoints,
}

/// The points of a primitive. (Own.)
#[derive(Clone, Copy, Debug)]
pub enum ItemPoints {
    /// The vertices of a triangle.
    Triangle {
        /// The first.
        a: Point32,
        /// The second.
        b: Point32,
        /// The third.
        c: Point32,
    },
    /// The corners of a box.
    Aabb {
        /// The least.
        lo: Point32,
        /// The greatest.
        hi: Point32,
    },
    /// An inactive primitive has none.
    Nothing,
}
