ghost use Rattle.std.specs.Prelude.{◌≡◌, true, IfOk};
ghost use Rattle.ray_ranges.specs.Sweep.{AreFree, ascend_from, greater, swept};

use crate::range::Range;
use std::alloc::{AllocError as NoMemory, Global};

// A range of one of two lists.
#[derive(Clone, Copy)]
pub(crate) struct Swept {
    pub range: Range,
    pub is_other: bool,
}

// Whether the ranges and the others ascend once they are sorted. Where they do, no range meets one
// of the others or an earlier one.
pub(crate) fn are_free(alloc: Global, ranges: &[Range], others: &[Range]) -> Result<bool, NoMemory>
    ensures { IfOk result (λ free. free ≡ true → AreFree ranges.now others.now) }
{
    let mut all = both(alloc, ranges, others)?;
    all.sort_unstable_by_key(|swept| swept.range.from);
    Ok(ascend(all.as_slice()))
}

// All of both lists.
fn both(alloc: Global, ranges: &[Range], others: &[Range]) -> Result<Vec<Swept>, NoMemory>
    ensures { IfOk result (λ all. all.items ≡ swept ranges.now others.now) }
{
    let mut all = Vec::new(alloc);
    for range in ranges {
        all.push(Swept {
            range: *range,
            is_other: false,
        })?;
    }
    for range in others {
        all.push(Swept {
            range: *range,
            is_other: true,
        })?;
    }
    Ok(all)
}

// Whether each range that isn't empty begins where those before it end or above, but for the others
// among each other.
fn ascend(all: &[Swept]) -> bool
    ensures { result ≡ ascend_from 0 0 all.now }
{
    let mut ends = 0;
    let mut other_ends = 0;
    for swept in all {
        let range = swept.range;
        if range.from < range.end {
            if range.from < ends {
                return false;
            }
            if swept.is_other {
                other_ends = later(other_ends, range.end);
            } else if range.from < other_ends {
                return false;
            } else {
                ends = range.end;
            }
        }
    }
    true
}

// The greater of two numbers.
fn later(a: u128, b: u128) -> u128
    ensures { result ≡ greater a b }
{
    if a < b { b } else { a }
}
