//! Items in the order of the stated tree's places.
ghost use Rattle.std.specs.Prelude.{◌≡◌, ◌≤◌, ◌^◌, length, map, IfOk};
ghost use Rattle.std.specs.List.{All};
ghost use Rattle.std.specs.List.Sorted.{IsPermutation, IsNonDecreasingBy};
ghost use Rattle.ray_stated.specs.Order.{stated_order};
ghost use Rattle.ray_stated.specs.Entries.{AreArranged, IsSmall, items_in};

use crate::entry::{Entry, entries_of};
use crate::reach::reach_of;
use crate::select::cut;
use ray_geom::Box3;
use std::alloc::{AllocError as NoMemory, Global};

// A leaf has at most so many items.
const MOST: usize = 4;

// Brings entries into the order of the places of the stated tree.
fn arrange(entries: &mut [Entry])
    requires { All IsSmall entries.old }
    ensures { AreArranged entries.old entries.new }
{
    if entries.len() <= MOST {
        sort(entries);
        return;
    }
    let reach = reach_of(entries);
    // Where all sums are the same the items stand in rising number, to the last leaf.
    if reach.far == 0 {
        sort(entries);
        return;
    }
    let half = (entries.len() + 1) / 2;
    cut(entries, half, reach);
    let (left, right) = entries.split_at_mut(half);
    arrange(left);
    arrange(right);
}

// Brings entries into rising order of their items.
fn sort(entries: &mut [Entry])
    ensures same { IsPermutation entries.old entries.new }
    ensures rising { IsNonDecreasingBy (λ e. e.item) entries.new }
{
    entries.sort_unstable_by_key(|e| e.item);
}

// Brings all entries into order.
fn arrange_all(entries: &mut Vec<Entry>)
    requires { All IsSmall entries.old.items }
    ensures { AreArranged entries.old.items entries.new.items }
{
    arrange(entries.as_mut_slice());
}

// The numbers of their items.
fn items_of(alloc: Global, entries: &[Entry]) -> Result<Vec<u32>, NoMemory>
    ensures { IfOk result (λ v. v.items ≡ items_in entries.now) }
{
    entries.iter().map(|e| e.item).collect(alloc)
}

// The numbers of the active items in the order of the stated tree's places.
pub(crate) fn ordered(alloc: Global, items: &[Option<Box3>]) -> Result<Vec<u32>, NoMemory>
    requires { length items.now ≤ 2 ^ 20 }
    ensures { IfOk result (λ v. v.items ≡ stated_order items.now) }
{
    let mut entries = entries_of(alloc, items)?;
    arrange_all(&mut entries);
    let numbers = items_of(alloc, &entries)?;
    Ok(numbers)
}
