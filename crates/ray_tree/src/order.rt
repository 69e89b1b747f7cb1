//! The order of the items of a tree by halves.
ghost use Rattle.std.specs.Prelude.{◌≡◌, ◌≤◌, ◌^◌, ℕ, IfOk, length, map};
ghost use Rattle.std.specs.List.Sorted.{IsPermutation};
ghost use Rattle.ray_tree.specs.Trees.{active, times};
ghost use Rattle.ray_tree.specs.Entries.{HasEach, items_in};

use crate::arrange::{Entry, arrange};
use ray_geom::Box3;
use std::alloc::{AllocError as NoMemory, Global};

// No coordinate is further from 0.
const FURTHEST: i64 = 1 << 19;

// An entry of an item with this box.
fn entry_of(b: &Box3, item: u32) -> Entry
    ensures { result.item ≡ item }
{
    let (lo, hi) = (b.lo(), b.hi());
    Entry {
        middle: [
            (lo.x + hi.x + 2 * FURTHEST) as u32,
            (lo.y + hi.y + 2 * FURTHEST) as u32,
            (lo.z + hi.z + 2 * FURTHEST) as u32,
        ],
        item,
    }
}

// An entry of each active item.
fn entries_of(alloc: Global, items: &[Option<Box3>]) -> Result<Vec<Entry>, NoMemory>
    requires { length items.now ≤ 2 ^ 20 }
    ensures { IfOk result (λ v. HasEach items.now v.items) }
{
    let mut entries = Vec::with_capacity(alloc, items.len())?;
    for i in 0..items.len() {
        if let Some(b) = &items[i] {
            entries.push(entry_of(b, i as u32))?;
        }
    }
    Ok(entries)
}

// Brings them into order.
fn arrange_all(entries: &mut Vec<Entry>)
    ensures { IsPermutation entries.old.items entries.new.items }
{
    arrange(entries.as_mut_slice());
}

// The numbers of their items.
fn items_of(alloc: Global, entries: &[Entry]) -> Result<Vec<u32>, NoMemory>
    ensures { IfOk result (λ v. v.items ≡ items_in entries.now) }
{
    entries.iter().map(|e| e.item).collect(alloc)
}

// The numbers of the active items in the order of the places of a tree by halves.
pub(crate) fn ordered(alloc: Global, items: &[Option<Box3>]) -> Result<Vec<u32>, NoMemory>
    requires { length items.now ≤ 2 ^ 20 }
    ensures { IfOk result (λ v. (p : ℕ) → times p v.items ≡ active items.now p) }
{
    let mut entries = entries_of(alloc, items)?;
    arrange_all(&mut entries);
    let numbers = items_of(alloc, &entries)?;
    Ok(numbers)
}
