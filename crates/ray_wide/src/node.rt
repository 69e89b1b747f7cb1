ghost use Rattle.std.specs.Prelude.{◌≡◌};

use crate::child::Child;
use ray_lanes::{Lanes8, PADDED_HI, PADDED_LO};

/// A leaf of the binary tree, with the places of its items, so that a walk that comes from the wide
/// node needs not ask the binary tree. (Own.)
#[derive(Clone, Copy, Debug, PartialEq, Eq)]
pub struct WideLeaf {
    /// The number of its node in the binary tree.
    pub node: u32,
    /// The first of its places.
    pub first: u32,
    /// How many there are: 1 to 4.
    pub count: u32,
}

/// What stands at one of the eight places of a wide node, or at the root. (Own.)
#[derive(Clone, Copy, Debug, Default, PartialEq, Eq)]
pub enum WideRef {
    /// A leaf of the binary tree.
    Leaf(WideLeaf),
    /// A wide node, by its number.
    Inner(u32),
    /// Nothing.
    #[default]
    Empty,
}

/// A node of a wide tree, in 256 bytes. (Own.)
#[derive(Clone, Copy, Debug)]
pub struct WideNode {
    /// The box of each child; where there is none the lane is padded.
    pub lanes: Lanes8,
    /// The children: 2 to 8.
    pub children: [Child; 8],
}

impl WideNode {
    // A node with these children, its lanes yet to be made.
    pub(crate) fn with_children(children: [Child; 8]) -> WideNode
        ensures { result.children ≡ children }
    {
        WideNode {
            lanes: Lanes8 {
                lo: [[PADDED_LO; 8]; 3],
                hi: [[PADDED_HI; 8]; 3],
            },
            children,
        }
    }
}

// A node takes no more than four lines of 64 bytes.
const _: () = prove!(size_of::<WideNode>() <= 256);
