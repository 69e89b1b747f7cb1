use ray_geom::Box3;

/// A node of a tree as it is stored, in 32 bytes. (Own.)
#[derive(Clone, Copy, Debug)]
pub struct StoredNode {
    /// Its box.
    pub bounds: Box3,
    /// Of a leaf how many items it has, 1 to 4; of an inner node 0.
    pub count: u32,
    /// Of a leaf the place of its first item; of an inner node the number of its right child, the
    /// left one being the next node.
    pub link: u32,
}
