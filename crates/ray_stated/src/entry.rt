//! Entries of items, which stand for them while they are arranged.
ghost use Rattle.std.specs.Prelude.{◌≡◌, ◌≤◌, ◌<◌, ◌≤ℤ◌, ◌+ℤ◌, ◌^◌, [], ◌∷◌, neg_ℤ, pos, length, IfOk};
ghost use Rattle.std.specs.List.{All};
ghost use Rattle.ray_prune.specs.BoxReach.{natural_part};
ghost use Rattle.ray_stated.specs.Order.{box_sum, actives};
ghost use Rattle.ray_stated.specs.Entries.{AreOf, IsSmall, items_in, entry_key};

use ray_geom::Box3;
use std::alloc::{AllocError as NoMemory, Global};

// For each axis the sum of the least and the greatest coordinate of an active item's box, raised
// by 2^20, and the number of the item.
#[derive(Clone, Copy, Debug)]
pub struct Entry {
    pub sums: [u32; 3],
    pub item: u32,
}

// A number of an item has so many bits.
pub(crate) const ITEM_BITS: u32 = 20;

impl Entry {
    // What entries are ordered by along an axis: the sum, and then the number.
    pub(crate) fn key(self, axis: usize) -> u64
        requires { axis < 3 }
        ensures { result ≡ entry_key axis self }
    {
        (u64::from(self.sums[axis]) << ITEM_BITS) + u64::from(self.item)
    }
}

// The sum of two coordinates, raised by 2^20.
fn raised_sum(lo: i64, hi: i64) -> u32
    requires lo_least { neg_ℤ (pos (2 ^ 19)) ≤ℤ lo }
    requires lo_most { lo ≤ℤ pos (2 ^ 19) }
    requires hi_least { neg_ℤ (pos (2 ^ 19)) ≤ℤ hi }
    requires hi_most { hi ≤ℤ pos (2 ^ 19) }
    ensures { result ≡ natural_part ((lo +ℤ hi) +ℤ pos (2 ^ 20)) }
{
    (lo + hi + (1 << 20)) as u32
}

// The entry of an item with this box.
fn entry_of(b: &Box3, item: u32) -> Entry
    ensures sums { result.sums ≡ box_sum 0 b.now ∷ box_sum 1 b.now ∷ box_sum 2 b.now ∷ [] }
    ensures item { result.item ≡ item }
{
    let (lo, hi) = (b.lo(), b.hi());
    Entry {
        sums: [
            raised_sum(lo.x, hi.x),
            raised_sum(lo.y, hi.y),
            raised_sum(lo.z, hi.z),
        ],
        item,
    }
}

// An entry of each active item, in rising number.
pub(crate) fn entries_of(alloc: Global, items: &[Option<Box3>]) -> Result<Vec<Entry>, NoMemory>
    requires { length items.now ≤ 2 ^ 20 }
    ensures of { IfOk result (λ v. AreOf items.now v.items) }
    ensures small { IfOk result (λ v. All IsSmall v.items) }
    ensures each { IfOk result (λ v. items_in v.items ≡ actives items.now (length items.now)) }
{
    let mut entries = Vec::with_capacity(alloc, items.len())?;
    for i in 0..items.len() {
        if let Some(b) = &items[i] {
            entries.push(entry_of(b, i as u32))?;
        }
    }
    Ok(entries)
}
