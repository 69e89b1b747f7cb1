/// A node of a tree.
#[derive(Clone, Copy, Debug, PartialEq, Eq)]
pub enum Node {
    /// A leaf over the items of the places from `first` on.
    Leaf {
        /// The first of its places.
        first: u32,
        /// How many there are: 1 to 4.
        count: u32,
    },
    /// A node with two nodes below it.
    Inner {
        /// The left one.
        left: u32,
        /// The right one.
        right: u32,
    },
}
