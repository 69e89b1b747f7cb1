//! Items in the order of a tree's places: each half of them apart from the other along one axis.
ghost use Rattle.std.specs.Prelude.{◌≡◌, ◌<◌, ◌≤◌, length};
ghost use Rattle.std.specs.List.Sorted.{IsPermutation};

// The middle of an active item's box, twice and from the least one on, and its number.
#[derive(Clone, Copy, Debug)]
pub struct Entry {
    pub middle: [u32; 3],
    pub item: u32,
}

// How far entries reach along an axis: none is below the least number or above the greatest.
#[derive(Clone, Copy, Debug)]
struct Reach {
    axis: usize,
    lo: u32,
    hi: u32,
}

// How many times a part is cut at most.
const CUTS: u32 = 64;

// So many of the last cuts halve the reach, which is then one number, since a middle is at most
// 2^21.
const HALVINGS: u32 = 22;

// Brings entries into the order of the places of a tree by halves.
pub(crate) fn arrange(entries: &mut [Entry])
    ensures { IsPermutation entries.old entries.new }
{
    if entries.len() <= 4 {
        return;
    }
    let half = (entries.len() + 1) / 2;
    let reach = widest(entries);
    select(entries, half, reach, CUTS);
    let (left, right) = entries.split_at_mut(half);
    arrange(left);
    arrange(right);
}

// Brings the first so many along an axis before all others. Entries that are even there need no
// order: what is left of the reach is then one number.
fn select(entries: &mut [Entry], many: usize, reach: Reach, cuts: u32)
    requires axis { reach.axis < 3 }
    requires within { many ≤ length entries.old }
    ensures { IsPermutation entries.old entries.new }
{
    if cuts == 0 || entries.len() < 2 || reach.lo >= reach.hi {
        return;
    }
    let limit = limit_of(entries, many, reach, cuts);
    let cut = move_front(entries, reach.axis, limit);
    let (front, back) = entries.split_at_mut(cut);
    if many > cut {
        let above = Reach { lo: limit, ..reach };
        select(back, many - cut, above, cuts - 1);
    } else if many < cut {
        let below = Reach {
            hi: limit - 1,
            ..reach
        };
        select(front, many, below, cuts - 1);
    }
}

// Moves the entries in front that are below a limit along an axis, and counts them.
fn move_front(entries: &mut [Entry], axis: usize, limit: u32) -> usize
    requires { axis < 3 }
    ensures same { IsPermutation entries.old entries.new }
    ensures long { length entries.new ≡ length entries.old }
    ensures within { result ≤ length entries.old }
{
    let mut many = 0;
    for i in 0..entries.len() {
        let goes = entries[i].middle[axis] < limit;
        exchange(entries, many, i);
        many += one_where(goes);
    }
    many
}

// Exchanges two entries, which may be one. Their numbers are taken apart so that they stay in
// registers; as wholes, or by `swap`, they would go by way of the stack.
fn exchange(entries: &mut [Entry], a: usize, b: usize)
    requires a { a < length entries.old }
    requires b { b < length entries.old }
    ensures same { IsPermutation entries.old entries.new }
    ensures long { length entries.new ≡ length entries.old }
{
    let (x, y) = (apart(&entries[a]), apart(&entries[b]));
    entries[a] = y;
    entries[b] = x;
}

// An entry number by number.
fn apart(entry: &Entry) -> Entry
    ensures { result ≡ entry.now }
{
    let [x, y, z] = entry.middle;
    Entry {
        middle: [x, y, z],
        item: entry.item,
    }
}

// A limit for the next cut, above the least number. Twice it is where about so many entries would
// be below it if they were spread evenly, then in turns the middle one of three, and that again,
// so that neither entries that crowd together nor ones in a row take many cuts. The last cuts
// halve the reach.
fn limit_of(entries: &[Entry], many: usize, reach: Reach, cuts: u32) -> u32
    requires axis { reach.axis < 3 }
    requires within { many ≤ length entries.now }
    requires some { 0 < length entries.now }
    requires apart { reach.lo < reach.hi }
    ensures { reach.lo < result }
{
    let first = reach.lo + 1;
    let way = reach.hi - first;
    if cuts <= HALVINGS {
        first + way / 2
    } else if cuts % 2 == 0 && cuts < CUTS {
        middle_of(entries, reach.axis).max(first)
    } else {
        let all = entries.len();
        first + part_of(way, aim(many, all), all)
    }
}

// How many of all to have below a limit, where so many are wanted: where these are few, twice as
// many, so that the next cut is of few, and likewise at the other end.
fn aim(many: usize, all: usize) -> usize
    requires { many ≤ all }
{
    let rest = all - many;
    if many < all / 4 {
        2 * many
    } else if rest < all / 4 {
        all - 2 * rest
    } else {
        many
    }
}

// As much of a way as some are of all.
fn part_of(way: u32, some: usize, all: usize) -> u32
    requires { 0 < all }
    ensures { result ≤ way }
{
    let way = u64::from(way);
    (way.saturating_mul(some as u64) / all as u64).min(way) as u32
}

// 1 where something is so, else 0.
fn one_where(is: bool) -> usize
    ensures { result ≤ 1 }
{
    is as usize
}

// The middle one of three entries along an axis.
fn middle_of(entries: &[Entry], axis: usize) -> u32
    requires axis { axis < 3 }
    requires some { 0 < length entries.now }
{
    let step = entries.len() / 4;
    let a = entries[step].middle[axis];
    let b = entries[2 * step].middle[axis];
    let c = entries[3 * step].middle[axis];
    a.max(b).min(a.min(b).max(c))
}

// How far entries reach along the axis along which they are furthest apart.
fn widest(entries: &[Entry]) -> Reach
    ensures { result.axis < 3 }
{
    let (mut lo, mut hi) = ([u32::MAX; 3], [0; 3]);
    for entry in entries {
        let [x, y, z] = entry.middle;
        lo = [lo[0].min(x), lo[1].min(y), lo[2].min(z)];
        hi = [hi[0].max(x), hi[1].max(y), hi[2].max(z)];
    }
    let axis = widest_axis(lo, hi);
    Reach {
        axis,
        lo: lo[axis],
        hi: hi[axis],
    }
}

// The axis along which the way from a point to another is furthest.
fn widest_axis(lo: [u32; 3], hi: [u32; 3]) -> usize
    ensures { result < 3 }
{
    let (x, y, z) = (way(lo[0], hi[0]), way(lo[1], hi[1]), way(lo[2], hi[2]));
    if x >= y && x >= z {
        0
    } else if y >= z {
        1
    } else {
        2
    }
}

// The way from a number to another, or none if that is less.
fn way(lo: u32, hi: u32) -> u32 {
    hi.saturating_sub(lo)
}
