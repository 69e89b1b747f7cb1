//! The exact cut of entries along an axis, by parting them again and again.
ghost use Rattle.std.specs.Prelude.{◌≡◌, ◌<◌, ◌≤◌, length, nat_lt, if◌then◌else◌, slice_index_or};
ghost use Rattle.std.specs.List.{All, SwappedAt};
ghost use Rattle.std.specs.List.Sorted.{IsPermutation};
ghost use Rattle.ray_stated.specs.declared.entry.Entry.{Entry};
ghost use Rattle.ray_stated.specs.Entries.{IsCut, entry_key};
ghost use Rattle.ray_stated.specs.Reaches.{AreWithin};
ghost use Rattle.ray_stated.specs.Partings.{IsParted};

use crate::entry::{Entry, ITEM_BITS};
use crate::reach::Reach;

// How many parts are looked at before the reach is halved each time.
const CUTS: u32 = 84;

// So many halvings make the reach one key, since no key is above 2^41.
const HALVINGS: u32 = 42;

// Brings the first so many along the axis of a reach before all others.
pub(crate) fn cut(entries: &mut [Entry], many: usize, reach: Reach)
    requires axis { reach.axis < 3 }
    requires many { many ≤ length entries.old }
    requires within { AreWithin reach entries.old }
    ensures same { IsPermutation entries.old entries.new }
    ensures apart { IsCut reach.axis many entries.new }
{
    select(entries, many, reach, CUTS);
}

// Brings the first so many along the axis of a reach before all others: what is below a limit goes
// to the front, and then the part in which the cut lies is parted again, by what is left of the
// reach.
fn select(entries: &mut [Entry], many: usize, reach: Reach, cuts: u32)
    requires axis { reach.axis < 3 }
    requires many { many ≤ length entries.old }
    requires within { AreWithin reach entries.old }
    ensures same { IsPermutation entries.old entries.new }
    ensures apart { IsCut reach.axis many entries.new }
{
    if many == 0 || many >= entries.len() || reach.lo >= reach.hi {
        return;
    }
    let limit = limit_of(entries, many, reach, cuts);
    let cut = move_front(entries, reach.axis, limit);
    let (front, back) = entries.split_at_mut(cut);
    let fewer = cuts.saturating_sub(1);
    if many > cut {
        let above = Reach { lo: limit, ..reach };
        select(back, many - cut, above, fewer);
    } else if many < cut {
        let below = Reach {
            hi: limit - 1,
            ..reach
        };
        select(front, many, below, fewer);
    }
}

// Moves the entries in front that are below a limit along an axis, and counts them.
fn move_front(entries: &mut [Entry], axis: usize, limit: u64) -> usize
    requires { axis < 3 }
    ensures { IsParted axis limit entries.old entries.new result }
{
    let mut many = 0;
    for i in 0..entries.len() {
        let goes = is_below(entries, i, axis, limit);
        exchange(entries, many, i);
        many += one_where(goes);
    }
    many
}

// Whether the key of an entry is below a limit.
fn is_below(entries: &[Entry], i: usize, axis: usize, limit: u64) -> bool
    requires axis { axis < 3 }
    requires small { i < length entries.now }
    ensures { (d : Entry) → result
        ≡ nat_lt (entry_key axis (slice_index_or entries.now i d)) limit }
{
    entries[i].key(axis) < limit
}

// 1 where something is so, else 0.
fn one_where(is: bool) -> usize
    ensures { result ≡ (if is then 1 else 0) }
{
    is as usize
}

// Exchanges two entries, which may be one. Their numbers are taken apart so that they stay in
// registers; as wholes, or by `swap`, they would go by way of the stack.
fn exchange(entries: &mut [Entry], a: usize, b: usize)
    requires a { a < length entries.old }
    requires b { b < length entries.old }
    ensures same { IsPermutation entries.old entries.new }
    ensures long { length entries.new ≡ length entries.old }
    ensures swapped { SwappedAt entries.old entries.new a b }
{
    let (x, y) = (apart(&entries[a]), apart(&entries[b]));
    entries[a] = y;
    entries[b] = x;
}

// An entry number by number.
fn apart(entry: &Entry) -> Entry
    ensures { result ≡ entry.now }
{
    let [x, y, z] = entry.sums;
    Entry {
        sums: [x, y, z],
        item: entry.item,
    }
}

// A limit for the next parting, above the least key and at most the greatest. Twice it is where
// about so many entries would be below it if they were spread evenly, then in turns the middle one
// of three, and that again, so that neither entries that crowd together nor ones in a row take many
// partings. In the end it halves the reach.
fn limit_of(entries: &[Entry], many: usize, reach: Reach, cuts: u32) -> u64
    requires axis { reach.axis < 3 }
    requires many { many ≤ length entries.now }
    requires some { 0 < length entries.now }
    requires wide { reach.lo < reach.hi }
    ensures above { reach.lo < result }
    ensures below { result ≤ reach.hi }
{
    let first = reach.lo + 1;
    if cuts <= HALVINGS {
        first + (reach.hi - first) / 2
    } else if cuts % 2 == 0 && cuts < CUTS {
        clamped(middle_of(entries, reach.axis), first, reach.hi)
    } else {
        let all = entries.len();
        clamped(spread(reach, aim(many, all), all), first, reach.hi)
    }
}

// A number moved to the nearer end of a range that it isn't in.
fn clamped(number: u64, least: u64, most: u64) -> u64
    requires { least ≤ most }
    ensures above { least ≤ result }
    ensures below { result ≤ most }
{
    number.max(least).min(most)
}

// How many of all to have below a limit, where so many are wanted: where these are few, twice as
// many, so that the next part is of few, and likewise at the other end.
fn aim(many: usize, all: usize) -> usize
    requires { many ≤ all }
{
    let rest = all - many;
    if many < all / 4 {
        2 * many
    } else if rest < all / 4 {
        all - 2 * rest
    } else {
        many
    }
}

// The key below which so many of all would be if they were spread evenly over the keys of a reach,
// but for those with a number that no item has.
fn spread(reach: Reach, some: usize, all: usize) -> u64
    requires { 0 < all }
{
    let least = dense(reach, reach.lo);
    let way = dense(reach, reach.hi).saturating_sub(least);
    let at = least.saturating_add(way.saturating_mul(some as u64) / all as u64);
    let span = reach.span.max(1);
    (at / span)
        .saturating_mul(1 << ITEM_BITS)
        .saturating_add(reach.first)
        .saturating_add(at % span)
}

// The place of a key among those of a reach, without those with a number that no item has.
fn dense(reach: Reach, key: u64) -> u64 {
    let (sum, item) = (key >> ITEM_BITS, key % (1 << ITEM_BITS));
    let offset = item
        .saturating_sub(reach.first)
        .min(reach.span.saturating_sub(1));
    sum.saturating_mul(reach.span).saturating_add(offset)
}

// The middle one of three keys along an axis.
fn middle_of(entries: &[Entry], axis: usize) -> u64
    requires axis { axis < 3 }
    requires some { 0 < length entries.now }
{
    let step = entries.len() / 4;
    let a = entries[step].key(axis);
    let b = entries[2 * step].key(axis);
    let c = entries[3 * step].key(axis);
    a.max(b).min(a.min(b).max(c))
}
