//! The active items in rising order of their keys, and of their numbers where these are equal.
ghost use Rattle.std.specs.Prelude.{◌≡◌, ◌<◌, ◌≤◌, ◌^◌, ◌↔◌, IfOk, IsTrue, length};
ghost use Rattle.std.specs.Prelude.{map, nat_lt};
ghost use Rattle.std.specs.List.{filter, range_with_len};
ghost use Rattle.std.specs.Ordering.{nat_cmp};
ghost use Rattle.std.specs.Thread.{IsSync};
ghost use Rattle.std.specs.List.Sorted.{IsPermutation, IsSorted};
ghost use Rattle.ray_morton.specs.Entries.{mark_in, mark_at, entries_below, key_parts};
ghost use Rattle.ray_morton.specs.Entries.{item_parts};
ghost use Rattle.ray_morton.specs.Entries.{Rises, IsInOrder};

use crate::middles::key;
use crate::presort::{Room, presorted, room_for, sort_all_runs};
use ray_geom::Box3;
use rayon::slice::par_sort_unstable;
use std::alloc::{AllocError as NoMemory, Global};
use std::thread::{self, Threads};

// An entry has so many numbers of items for each key, and there are so many keys.
pub(crate) const NUMBERS: u128 = 1 << 20;

const KEYS: u128 = 1 << 60;

// An item that isn't active has this in place of an entry.
const NONE: u128 = KEYS * NUMBERS;

// The entry of an item, if it is active.
fn mark_of(item: &Option<Box3>, p: usize) -> u128
    requires { p ≤ 2 ^ 20 }
    ensures { result ≡ mark_in item.now p }
{
    match item {
        Some(b) => u128::from(key(b)) * NUMBERS + p as u128,
        None => NONE,
    }
}

// The same, of the item of a number.
fn mark(items: &[Option<Box3>], p: usize) -> u128
    requires few { length items.now ≤ 2 ^ 20 }
    requires small { p < length items.now }
    ensures { result ≡ mark_at items.now p }
{
    mark_of(&items[p], p)
}

// Sets marks to those of all items, by so many threads.
fn set_marks<R: Threads + Sync>(rt: &R, threads: usize, items: &[Option<Box3>], marks: &mut [u128])
    requires threads { 0 < threads }
    requires few { length items.now ≤ 2 ^ 20 }
    requires long { length marks.old ≡ length items.now }
    ensures { marks.new ≡ map (mark_at items.now) (range_with_len 0 (length items.now)) }
{
    thread::for_each_mut(rt, marks, threads, &|p, to| *to = mark(items, p));
}

// The marks of all items.
fn marks_of<R: Threads + Sync>(
    rt: &R,
    threads: usize,
    alloc: Global,
    items: &[Option<Box3>],
) -> Result<Vec<u128>, NoMemory>
    requires threads { 0 < threads }
    requires few { length items.now ≤ 2 ^ 20 }
    ensures { IfOk result (λ v. v.items
        ≡ map (mark_at items.now) (range_with_len 0 (length items.now))) }
{
    let mut marks = vec![in alloc; 0; items.len()]?;
    set_marks(rt, threads, items, marks.as_mut_slice());
    Ok(marks)
}

// Leaves the entries among marks.
fn keep_entries(marks: &mut Vec<u128>)
    ensures { marks.new.items ≡ filter (λ e. nat_lt e (2 ^ 80)) marks.old.items }
{
    marks.retain(|e| *e < NONE);
}

// The entries of the active items.
fn entries_of<R: Threads + Sync>(
    rt: &R,
    threads: usize,
    alloc: Global,
    items: &[Option<Box3>],
) -> Result<Vec<u128>, NoMemory>
    requires threads { 0 < threads }
    requires few { length items.now ≤ 2 ^ 20 }
    ensures { IfOk result (λ v. v.items ≡ entries_below items.now (length items.now)) }
{
    let mut entries = marks_of(rt, threads, alloc, items)?;
    keep_entries(&mut entries);
    Ok(entries)
}

// Sorts entries.
fn sort<R: Threads + Sync>(rt: &R, entries: &mut Vec<u128>)
    ensures same { IsPermutation entries.old.items entries.new.items }
    ensures sorted { IsSorted nat_cmp entries.new.items }
{
    par_sort_unstable(rt, entries.as_mut_slice());
}

// Whether entries are in order.
fn do_rise(entries: &[u128]) -> bool
    ensures { IsTrue result ↔ Rises entries.now }
{
    for i in 1..entries.len() {
        if entries[i] < entries[i - 1] {
            return false;
        }
    }
    true
}

// Brings entries into order, as far as they aren't yet.
fn settle<R: Threads + Sync>(rt: &R, entries: &mut Vec<u128>)
    ensures same { IsPermutation entries.old.items entries.new.items }
    ensures rises { Rises entries.new.items }
{
    if do_rise(entries) {
        return;
    }
    sort_all_runs(entries);
    if do_rise(entries) {
        return;
    }
    sort(rt, entries);
}

// Entries to be sorted, and the room for it.
#[derive(Drop)]
pub struct Unsorted {
    pub entries: Vec<u128>,
    pub room: Room,
}

// The entries of the active items. Where there are several threads, one makes the room.
fn begun<R: Threads + Sync>(
    rt: &R,
    threads: usize,
    alloc: Global,
    items: &[Option<Box3>],
) -> Result<Unsorted, NoMemory>
    requires threads { 0 < threads }
    requires few { length items.now ≤ 2 ^ 20 }
    ensures entries { IfOk result (λ u. u.entries.items
        ≡ entries_below items.now (length items.now)) }
    ensures words { IfOk result (λ u. length u.room.words.items ≡ length items.now) }
    ensures sorted { IfOk result (λ u. length u.room.sorted.items ≡ length items.now) }
{
    let many = items.len();
    if threads <= 1 {
        let entries = entries_of(rt, threads, alloc, items)?;
        let room = room_for(alloc, many)?;
        return Ok(Unsorted { entries, room });
    }
    let (room, entries) = thread::join(
        rt,
        || room_for(alloc, many),
        || -> Result<Vec<u128>, NoMemory>
            requires { IsSync R.row × (0 < threads) × (length items.now ≤ 2 ^ 20) }
            ensures { IfOk result (λ v. v.items
                ≡ entries_below items.entry.now (length items.entry.now)) }
        { entries_of(rt, threads, alloc, items) },
    );
    let room = room?;
    let entries = entries?;
    Ok(Unsorted { entries, room })
}

// The entries of the active items in rising order.
pub(crate) fn in_order<R: Threads + Sync>(
    rt: &R,
    threads: usize,
    alloc: Global,
    items: &[Option<Box3>],
) -> Result<Vec<u128>, NoMemory>
    requires threads { 0 < threads }
    requires few { length items.now ≤ 2 ^ 20 }
    ensures { IfOk result (λ v. IsInOrder items.now v.items) }
{
    let Unsorted { entries, room } = begun(rt, threads, alloc, items)?;
    let mut sorted = presorted(rt, threads, &entries, room);
    settle(rt, &mut sorted);
    Ok(sorted)
}

// The keys in entries.
pub(crate) fn keys_in(alloc: Global, entries: &[u128]) -> Result<Vec<u64>, NoMemory>
    ensures { IfOk result (λ v. v.items ≡ key_parts entries.now) }
{
    entries
        .iter()
        .map(|e| (e / NUMBERS % KEYS) as u64)
        .collect(alloc)
}

// The numbers of items in entries.
pub(crate) fn numbers_in(alloc: Global, entries: &[u128]) -> Result<Vec<u32>, NoMemory>
    ensures { IfOk result (λ v. v.items ≡ item_parts entries.now) }
{
    entries.iter().map(|e| (e % NUMBERS) as u32).collect(alloc)
}
