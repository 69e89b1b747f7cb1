//! The primitives at the leaves of a tree, as they are kept, and a part of them.
ghost use Rattle.std.specs.Prelude.{◌≡◌, ◌+◌, ◌<◌, ◌≤◌, [], IfOk, drop, length, take};
ghost use Rattle.ray_leaves.specs.Lists.{item_in, items_in, part_of};

use crate::leaf_item::LeafItem;
use crate::triangle_item::TriangleItem;
use std::alloc::AllocError as NoMemory;

/// The primitives at the leaves, in the order of the tree.
#[derive(Drop)]
pub enum LeafList {
    /// All are triangles whose numbers fit into few bytes.
    Triangles(Vec<TriangleItem>),
    /// Any.
    Any(Vec<LeafItem>),
}

/// Primitives of one leaf. Contracts see them by `part_of` of `specs/Lists` as a list of
/// [`LeafItem`]. (Own.)
#[derive(Clone, Copy)]
pub enum LeafPart<'a> {
    /// Triangles.
    Triangles(&'a [TriangleItem]),
    /// Any.
    Any(&'a [LeafItem]),
}

impl LeafList {
    /// The same.
    pub fn copy(&self) -> Result<LeafList, NoMemory>
        ensures { IfOk result (λ copy. items_in copy ≡ items_in self.now) }
    {
        match self {
            LeafList::Triangles(items) => Ok(LeafList::Triangles(items.clone()?)),
            LeafList::Any(items) => Ok(LeafList::Any(items.clone()?)),
        }
    }

    /// So many of them, from one on.
    pub fn part(&self, first: usize, count: usize) -> LeafPart<'_>
        requires { first + count ≤ length (items_in self.now) }
        ensures { part_of result ≡ take count (drop first (items_in self.now)) }
    {
        match self {
            LeafList::Triangles(items) => LeafPart::Triangles(&items[first..first + count]),
            LeafList::Any(items) => LeafPart::Any(&items[first..first + count]),
        }
    }
}

impl<'a> LeafPart<'a> {
    /// None.
    pub fn empty() -> LeafPart<'a>
        ensures { part_of result ≡ [] }
    {
        LeafPart::Any(&[])
    }

    /// How many they are.
    pub fn len(self) -> usize
        ensures { result ≡ length (part_of self.entry) }
    {
        match self {
            LeafPart::Triangles(items) => items.len(),
            LeafPart::Any(items) => items.len(),
        }
    }

    /// One of them. It is put together where it is used, so that no more of it is read than is.
    #[inline(always)]
    pub fn get(self, k: usize) -> LeafItem
        requires { k < length (part_of self) }
        ensures { result ≡ item_in self.entry k }
    {
        match self {
            LeafPart::Triangles(items) => items[k].get(),
            LeafPart::Any(items) => items[k],
        }
    }
}
