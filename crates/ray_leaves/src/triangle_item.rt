//! The triangles at leaves, as they stand in the list of a structure.
ghost use Rattle.std.specs.Prelude.{◌≡◌, ◌<◌, ◌^◌};
ghost use Rattle.ray_leaves.specs.declared.leaf_item.ItemPoints.TheVariants.{Triangle};
ghost use Rattle.ray_leaves.specs.Packed.{packed_at};

use crate::leaf_item::{ItemPoints, LeafItem};
use crate::prim_place::PrimPlace;
use ray_geom::Point32;
use std::marker::Model;

/// A triangle at a leaf of the tree, in 40 bytes, so that a leaf takes few lines of memory.
/// Contracts see it as the [`LeafItem`] for which it stands. (Own.)
#[derive(Clone, Copy, Debug)]
pub struct TriangleItem {
    a: Point32,
    b: Point32,
    c: Point32,
    // Its number in its geometry, below 2^24: the lower 16 bits, and those above.
    low: u16,
    high: u8,
    // The number of its geometry.
    geometry: u8,
}

impl Model for TriangleItem {
    ghost use Rattle.ray_leaves.specs.declared.leaf_item.LeafItem.{LeafItem};
    ghost use Rattle.ray_leaves.specs.Packed.{IsPacked, packed_item, has-parts};
    ghost use Rattle.ray_leaves.specs.Packed.{first_of, second_of, third_of, low_of, high_of};

    ghost Value = { LeafItem };

    ghost view = { λ t. packed_item t.a t.b t.c t.low t.high t.geometry };

    ghost invariant = { λ t. IsPacked t.low };

    ghost inverse = { λ v. record {
      a = first_of v.points;
      b = second_of v.points;
      c = third_of v.points;
      low = low_of v.place.primitive;
      high = high_of v.place.primitive;
      geometry = v.place.geometry;
    } };

    ghost inverse_ok = { λ t h i. record {
      a = t.a;
      b = t.b;
      c = t.c;
      low = (has-parts t.low t.high h).low_is i;
      high = (has-parts t.low t.high h).high_is i;
      geometry = t.geometry;
    } };
}

impl TriangleItem {
    // An item in so few bytes. None exactly where it is no triangle, or a number of its place
    // doesn't fit.
    pub(crate) fn pack(place: PrimPlace, points: ItemPoints) -> Option<TriangleItem>
        ensures { result ≡ packed_at place points }
    {
        match points {
            ItemPoints::Triangle { a, b, c } => {
                if place.geometry < 256 && place.primitive < 16777216 {
                    Some(packed(place, a, b, c))
                } else {
                    None
                }
            }
            ItemPoints::Aabb { .. } => None,
            ItemPoints::Nothing => None,
        }
    }

    /// The item.
    #[inline(always)]
    pub fn get(self) -> LeafItem
        ensures { result ≡ self }
    {
        LeafItem {
            place: PrimPlace {
                geometry: u32::from(self.geometry),
                primitive: u32::from(self.high) * 65536 + u32::from(self.low),
            },
            points: ItemPoints::Triangle {
                a: self.a,
                b: self.b,
                c: self.c,
            },
        }
    }
}

// A triangle at a place whose numbers fit.
#[inline(always)]
fn packed(place: PrimPlace, a: Point32, b: Point32, c: Point32) -> TriangleItem
    requires geometry { place.geometry < 256 }
    requires primitive { place.primitive < 2 ^ 24 }
    ensures { result ≡ record { place = place; points = Triangle a b c } }
{
    TriangleItem {
        a,
        b,
        c,
        low: (place.primitive % 65536) as u16,
        high: (place.primitive / 65536) as u8,
        geometry: place.geometry as u8,
    }
}

// A triangle takes no more than 40 bytes.
const _: () = prove!(size_of::<TriangleItem>() <= 40);
