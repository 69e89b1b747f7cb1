//! The children of a wide node, as they stand in it.
ghost use Rattle.std.specs.Prelude.{◌≡◌, ◌<◌, ◌≤◌, ◌^◌, ◌/◌, ◌%◌};
ghost use Rattle.ray_wide.specs.declared.node.WideRef.TheVariants.{Leaf, Inner, Empty};
ghost use Rattle.ray_wide.specs.Children.{kind_for, place_of};
ghost use Rattle.ray_wide.specs.Subtrees.{wide_leaf};

use crate::node::{WideLeaf, WideRef};
use std::marker::Model;

/// A child of a wide node, in 8 bytes. Contracts see it as the `WideRef` for which it stands. (Own.)
#[derive(Clone, Copy, Debug, Default)]
pub struct Child {
    // The number of the wide node, or that of the leaf's node in the binary tree.
    number: u32,
    // The first of the leaf's places, below 2^24: its lower 16 bits, and those above.
    low: u16,
    high: u8,
    kind: Kind,
}

// What a child is: a leaf of so many places, a wide node, or nothing.
#[derive(Clone, Copy, Debug, Default)]
pub enum Kind {
    One,
    Two,
    Three,
    Four,
    Inner,
    #[default]
    Empty,
}

impl Model for Child {
    ghost use Rattle.ray_wide.specs.declared.node.WideRef.{WideRef};
    ghost use Rattle.ray_wide.specs.Children.{IsPacked, child_of, has-parts};
    ghost use Rattle.ray_wide.specs.Children.{number_in, low_in, high_in, kind_in};

    ghost Value = { WideRef };

    ghost view = { λ c. child_of c.number c.low c.high c.kind };

    ghost invariant = { λ c. IsPacked c.number c.low c.high c.kind };

    ghost inverse = { λ v. record {
      number = number_in v;
      low = low_in v;
      high = high_in v;
      kind = kind_in v;
    } };

    ghost inverse_ok = { λ c h i. record {
      number = (has-parts c.number c.low c.high c.kind h).number_is i;
      low = (has-parts c.number c.low c.high c.kind h).low_is i;
      high = (has-parts c.number c.low c.high c.kind h).high_is i;
      kind = (has-parts c.number c.low c.high c.kind h).kind_is i;
    } };
}

impl Child {
    // Nothing.
    pub(crate) fn empty() -> Child
        ensures { result ≡ Empty }
    {
        Child {
            number: 0,
            low: 0,
            high: 0,
            kind: Kind::Empty,
        }
    }

    // A wide node, by its number.
    pub(crate) fn inner(w: u32) -> Child
        ensures { result ≡ Inner w }
    {
        Child {
            number: w,
            low: 0,
            high: 0,
            kind: Kind::Inner,
        }
    }

    // A leaf. Its places are below 2^24, and 1 to 4.
    pub(crate) fn leaf(leaf: WideLeaf) -> Child
        requires places { leaf.first < 2 ^ 24 }
        requires some { 0 < leaf.count }
        requires few { leaf.count ≤ 4 }
        ensures { result ≡ Leaf leaf }
    {
        Child {
            number: leaf.node,
            low: low_of(leaf.first),
            high: high_of(leaf.first),
            kind: kind_of(leaf.count),
        }
    }

    /// The child.
    pub fn get(self) -> WideRef
        ensures { result ≡ self }
    {
        match self.kind {
            Kind::One => leaf_of(self.number, self.low, self.high, 1),
            Kind::Two => leaf_of(self.number, self.low, self.high, 2),
            Kind::Three => leaf_of(self.number, self.low, self.high, 3),
            Kind::Four => leaf_of(self.number, self.low, self.high, 4),
            Kind::Inner => WideRef::Inner(self.number),
            Kind::Empty => WideRef::Empty,
        }
    }
}

// The lower 16 bits of a place.
fn low_of(place: u32) -> u16
    ensures { result ≡ place % 65536 }
{
    (place % 65536) as u16
}

// The bits of a place above these.
fn high_of(place: u32) -> u8
    requires { place < 2 ^ 24 }
    ensures { result ≡ place / 65536 }
{
    (place / 65536) as u8
}

// The kind of a leaf of so many places.
fn kind_of(count: u32) -> Kind
    ensures { result ≡ kind_for count }
{
    match count {
        1 => Kind::One,
        2 => Kind::Two,
        3 => Kind::Three,
        _ => Kind::Four,
    }
}

// A leaf of so many places, the first of them in two parts.
#[inline(always)]
fn leaf_of(node: u32, low: u16, high: u8, count: u32) -> WideRef
    ensures { result ≡ Leaf (wide_leaf node (place_of low high) count) }
{
    WideRef::Leaf(WideLeaf {
        node,
        first: u32::from(high) * 65536 + u32::from(low),
        count,
    })
}

// A child takes no more than 8 bytes.
const _: () = prove!(size_of::<Child>() <= 8);
