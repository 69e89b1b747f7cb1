//! How far entries reach along the axis along which their sums are furthest apart.
ghost use Rattle.std.specs.Prelude.{◌≡◌, ◌<◌, ◌-◌, ◌*◌, ◌+◌, ◌^◌, fold, min, max};
ghost use Rattle.std.specs.List.{All};
ghost use Rattle.ray_stated.specs.Order.{width, widest};
ghost use Rattle.ray_stated.specs.Entries.{IsSmall, entry_sum};
ghost use Rattle.ray_stated.specs.Reaches.{AreWithin, no_sides, widened, side_along, wider_side};

use crate::entry::{Entry, ITEM_BITS};

// The least and the greatest of some numbers.
#[derive(Clone, Copy, Debug)]
pub struct Side {
    pub lo: u32,
    pub hi: u32,
}

// Those of the entries' sums along each axis, and of their items' numbers.
#[derive(Clone, Copy, Debug)]
pub struct Sides {
    pub x: Side,
    pub y: Side,
    pub z: Side,
    pub items: Side,
}

// How far entries reach along the axis along which their sums are furthest apart, by `far`: no key
// is less than `lo` or greater than `hi`. Their items' numbers are from `first` on, at most `span`
// of them.
#[derive(Clone, Copy, Debug)]
pub struct Reach {
    pub axis: usize,
    pub lo: u64,
    pub hi: u64,
    pub first: u64,
    pub span: u64,
    pub far: u32,
}

// No sum, and no number of an item, is above this.
const MOST: u32 = 1 << 21;

// The side of no number at all.
fn no_side() -> Side
    ensures lo { result.lo ≡ 2 ^ 21 }
    ensures hi { result.hi ≡ 0 }
{
    Side { lo: MOST, hi: 0 }
}

// The side of one number more.
fn wider(side: Side, number: u32) -> Side
    ensures { result ≡ wider_side side number }
{
    Side {
        lo: side.lo.min(number),
        hi: side.hi.max(number),
    }
}

// The sides of no entry.
fn blank() -> Sides
    ensures { result ≡ no_sides }
{
    Sides {
        x: no_side(),
        y: no_side(),
        z: no_side(),
        items: no_side(),
    }
}

// The sides with one entry more.
fn with_entry(sides: Sides, entry: Entry) -> Sides
    ensures { result ≡ widened sides entry }
{
    let [x, y, z] = entry.sums;
    Sides {
        x: wider(sides.x, x),
        y: wider(sides.y, y),
        z: wider(sides.z, z),
        items: wider(sides.items, entry.item),
    }
}

// The sides of entries.
#[tactic(auto, using(std::proofs::lemmas::List::Sums::fold_more))]
fn sides_of(entries: &[Entry]) -> Sides
    ensures { result ≡ fold widened no_sides entries.now }
{
    let mut sides = blank();
    for entry in entries {
        sides = with_entry(sides, *entry);
    }
    sides
}

// How far apart the ends of a side are.
fn way(side: Side) -> u32
    ensures { result ≡ side.hi - side.lo }
{
    side.hi.saturating_sub(side.lo)
}

// The axis of the greatest of three widths, the first such.
fn widest_axis(x: u32, y: u32, z: u32) -> usize
    ensures value { result ≡ widest x y z }
    ensures axis { result < 3 }
{
    if y <= x && z <= x {
        0
    } else if z <= y {
        1
    } else {
        2
    }
}

// The side along an axis.
fn along(sides: Sides, axis: usize) -> Side
    ensures { result ≡ side_along axis sides }
{
    match axis {
        0 => sides.x,
        1 => sides.y,
        _ => sides.z,
    }
}

// The reach along an axis of entries with these sides.
fn reach_by(axis: usize, side: Side, items: Side, far: u32) -> Reach
    ensures axis { result.axis ≡ axis }
    ensures lo { result.lo ≡ side.lo * 2 ^ 20 }
    ensures hi { result.hi ≡ side.hi * 2 ^ 20 + (2 ^ 20 - 1) }
    ensures far { result.far ≡ far }
{
    Reach {
        axis,
        lo: u64::from(side.lo) << ITEM_BITS,
        hi: (u64::from(side.hi) << ITEM_BITS) + ((1 << ITEM_BITS) - 1),
        first: u64::from(items.lo),
        span: u64::from(way(items)) + 1,
        far,
    }
}

// How far entries reach along the axis along which their sums are furthest apart, the first such.
pub(crate) fn reach_of(entries: &[Entry]) -> Reach
    requires { All IsSmall entries.now }
    ensures axis { result.axis ≡ widest (width (entry_sum 0) entries.now)
        (width (entry_sum 1) entries.now) (width (entry_sum 2) entries.now) }
    ensures small { result.axis < 3 }
    ensures far { result.far ≡ max (max (width (entry_sum 0) entries.now)
        (width (entry_sum 1) entries.now)) (width (entry_sum 2) entries.now) }
    ensures within { AreWithin result entries.now }
{
    let sides = sides_of(entries);
    let (x, y, z) = (way(sides.x), way(sides.y), way(sides.z));
    let axis = widest_axis(x, y, z);
    let far = x.max(y).max(z);
    reach_by(axis, along(sides, axis), sides.items, far)
}
