/// What the slab test says of a box that may be met. (Own.)
#[derive(Clone, Copy, Debug, PartialEq, Eq)]
pub struct Bound {
    /// A key that is at most that of the distance at which the box is entered, counted from where
    /// the root's box is.
    pub key: i32,
    /// Whether the box is met for sure, at a key of at most `key` and 3 more.
    pub sure: bool,
}
