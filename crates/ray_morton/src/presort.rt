//! Entries brought into order by words of 64 bits, which sort faster: as many bits of the keys as
//! there is room for, and below them the place of the entry. Where that isn't yet the order, entries
//! that are the same in these bits are sorted among themselves. What is promised of all this is that
//! the entries stay the same; whether they are in order is tested.
ghost use Rattle.std.specs.Prelude.{◌≡◌, ◌≤◌, ◌<◌, ◌^◌, ◌/◌, IfOk, length, map, slice_index};
ghost use Rattle.std.specs.Prelude.{slice_index_or};
ghost use Rattle.std.specs.List.{range_with_len};
ghost use Rattle.std.specs.List.Sorted.{IsPermutation};
ghost use Rattle.ray_morton.specs.Words.{word_of, placed};

use crate::entries::NUMBERS;
use rayon::slice::par_sort_unstable;
use std::alloc::{AllocError as NoMemory, Global};
use std::thread::{self, Threads};

// Room for words and for entries in their order.
#[derive(Drop)]
pub struct Room {
    pub words: Vec<u64>,
    pub sorted: Vec<u128>,
}

// Room for so many entries.
pub(crate) fn room_for(alloc: Global, many: usize) -> Result<Room, NoMemory>
    ensures words { IfOk result (λ r. length r.words.items ≡ many) }
    ensures sorted { IfOk result (λ r. length r.sorted.items ≡ many) }
{
    let words = vec![in alloc; 0; many]?;
    let sorted = vec![in alloc; 0; many]?;
    Ok(Room { words, sorted })
}

// A word has so many bits of a key, from the highest one on that differs.
const ROOM: u32 = 44;

const PARTS: u128 = 1 << ROOM;

// The entry of a place, or 0 where there is none.
fn entry_at(entries: &[u128], k: usize) -> u128
    ensures { result ≡ slice_index_or entries.now k 0 }
{
    match entries.get(k) {
        Some(e) => *e,
        None => 0,
    }
}

// The word of an entry.
fn word(entries: &[u128], shift: u32, k: usize) -> u64
    requires { shift < 128 }
    ensures { result ≡ word_of entries.now shift k }
{
    let part = (entry_at(entries, k) >> shift) % PARTS;
    (part * NUMBERS) as u64 + k as u64 % NUMBERS as u64
}

// Sets words to those of entries, by so many threads.
fn set_words<R: Threads + Sync>(
    rt: &R,
    threads: usize,
    entries: &[u128],
    shift: u32,
    words: &mut [u64],
)
    requires threads { 0 < threads }
    requires shift { shift < 128 }
    ensures { words.new ≡ map (word_of entries.now shift) (range_with_len 0 (length words.old)) }
{
    thread::for_each_mut(rt, words, threads, &|k, to| *to = word(entries, shift, k));
}

// The same, of a list's items.
fn set_all_words<R: Threads + Sync>(
    rt: &R,
    threads: usize,
    entries: &[u128],
    shift: u32,
    words: &mut Vec<u64>,
)
    requires threads { 0 < threads }
    requires shift { shift < 128 }
    ensures { words.new.items
        ≡ map (word_of entries.now shift) (range_with_len 0 (length words.old.items)) }
{
    set_words(rt, threads, entries, shift, words.as_mut_slice());
}

// The words of entries, in the room that there is.
fn words_of<R: Threads + Sync>(
    rt: &R,
    threads: usize,
    entries: &[u128],
    shift: u32,
    words: &mut Vec<u64>,
)
    requires threads { 0 < threads }
    requires shift { shift < 128 }
    requires room { length entries.now ≤ length words.old.items }
    ensures { words.new.items
        ≡ map (word_of entries.now shift) (range_with_len 0 (length entries.now)) }
{
    words.truncate(entries.len());
    set_all_words(rt, threads, entries, shift, words);
}

// Sorts words.
fn sort<R: Threads + Sync>(rt: &R, words: &mut Vec<u64>)
    ensures { IsPermutation words.old.items words.new.items }
{
    par_sort_unstable(rt, words.as_mut_slice());
}

// The entry of the place in a word.
fn placed_at(entries: &[u128], words: &[u64], k: usize) -> u128
    requires { k < length words.now }
    ensures { result ≡ placed entries.now (slice_index words.now k) }
{
    entry_at(entries, (words[k] % NUMBERS as u64) as usize)
}

// Sets entries to those of the places in words, by so many threads.
fn gather<R: Threads + Sync>(
    rt: &R,
    threads: usize,
    entries: &[u128],
    words: &[u64],
    gathered: &mut [u128],
)
    requires threads { 0 < threads }
    requires long { length gathered.old ≡ length words.now }
    ensures { gathered.new ≡ map (placed entries.now) words.now }
{
    thread::for_each_mut(
        rt,
        gathered,
        threads,
        &|k, to| *to = placed_at(entries, words, k),
    );
}

// The same, of a list's items.
fn gather_all<R: Threads + Sync>(
    rt: &R,
    threads: usize,
    entries: &[u128],
    words: &[u64],
    gathered: &mut Vec<u128>,
)
    requires threads { 0 < threads }
    requires long { length gathered.old.items ≡ length words.now }
    ensures { gathered.new.items ≡ map (placed entries.now) words.now }
{
    gather(rt, threads, entries, words, gathered.as_mut_slice());
}

// The entries of the places in words, in the room that there is.
fn gathered<R: Threads + Sync>(
    rt: &R,
    threads: usize,
    entries: &[u128],
    words: &[u64],
    gathered: &mut Vec<u128>,
)
    requires threads { 0 < threads }
    requires room { length words.now ≤ length gathered.old.items }
    ensures { gathered.new.items ≡ map (placed entries.now) words.now }
{
    gathered.truncate(words.len());
    gather_all(rt, threads, entries, words, gathered);
}

// How far down the bits are that have no room in a word.
fn shift_of(entries: &[u128]) -> u32
    ensures { result < 128 }
{
    let (mut none, mut all) = (0, u128::MAX);
    for e in entries {
        none |= *e;
        all &= *e;
    }
    (128 - (none & !all).leading_zeros())
        .saturating_sub(ROOM)
        .clamp(20, 100)
}

// Where the entries end that are the same as the one at a place from a bit up.
fn run_end(entries: &[u128], from: usize, shift: u32) -> usize
    requires small { from < length entries.now }
    requires shift { shift < 128 }
    ensures more { from < result }
    ensures within { result ≤ length entries.now }
{
    let part = entries[from] >> shift;
    for i in from + 1..entries.len() {
        if entries[i] >> shift != part {
            return i;
        }
    }
    entries.len()
}

// Sorts the entries of some places.
fn sort_part(entries: &mut [u128], from: usize, to: usize)
    requires some { from ≤ to }
    requires within { to ≤ length entries.old }
    ensures same { IsPermutation entries.old entries.new }
    ensures long { length entries.new ≡ length entries.old }
{
    let (_before, rest) = entries.split_at_mut(from);
    let (part, _after) = rest.split_at_mut(to - from);
    part.sort_unstable();
}

// Sorts entries that are the same from a bit up among themselves.
fn sort_runs(entries: &mut [u128], shift: u32)
    requires { shift < 128 }
    ensures { IsPermutation entries.old entries.new }
{
    let mut from = 0;
    while from < entries.len() {
        let to = run_end(entries, from, shift);
        if to - from > 1 {
            sort_part(entries, from, to);
        }
        from = to;
    }
}

// Sorts entries among themselves that have the same word, but for the place in it.
pub(crate) fn sort_all_runs(entries: &mut Vec<u128>)
    ensures { IsPermutation entries.old.items entries.new.items }
{
    let shift = shift_of(entries);
    sort_runs(entries.as_mut_slice(), shift);
}

// The same entries, in the order of their words.
pub(crate) fn presorted<R: Threads + Sync>(
    rt: &R,
    threads: usize,
    entries: &[u128],
    mut room: Room,
) -> Vec<u128>
    requires threads { 0 < threads }
    requires few { length entries.now ≤ 2 ^ 20 }
    requires words { length entries.now ≤ length room.words.items }
    requires sorted { length entries.now ≤ length room.sorted.items }
    ensures { IsPermutation entries.now result.items }
{
    let shift = shift_of(entries);
    words_of(rt, threads, entries, shift, &mut room.words);
    sort(rt, &mut room.words);
    gathered(rt, threads, entries, &room.words, &mut room.sorted);
    room.sorted
}
