ghost use Rattle.std.specs.Prelude.{◌≡◌, IfOk, ℕ};
ghost use Rattle.ray_ranges.specs.Meeting.{covers, meets_any};
ghost use Rattle.std.specs.List.{position};
ghost use Rattle.ray_ranges.specs.First.{first_meeting, first_meeting_any, first_meeting_earlier};

use crate::disjoint_ranges::DisjointRanges;
use crate::range::Range;
use crate::sweep::are_free;
use std::alloc::{AllocError as NoMemory, Global};

/// The least number of a range that meets one of the others, or one that stands before it. It takes
/// n log n steps.
pub fn first_meeting(
    alloc: Global,
    ranges: &[Range],
    others: &[Range],
) -> Result<Option<usize>, NoMemory>
    ensures { IfOk result (λ first. first ≡ first_meeting ranges.now others.now) }
{
    if are_free(alloc, ranges, others)? {
        return Ok(None);
    }
    let mut taken = union(alloc, others)?;
    for (k, range) in ranges.iter().enumerate() {
        if taken.meets(*range) {
            return Ok(Some(k));
        }
        taken.put(*range)?;
    }
    Ok(None)
}

/// The least number of a range that meets one that stands before it.
pub fn first_meeting_earlier(alloc: Global, ranges: &[Range]) -> Result<Option<usize>, NoMemory>
    ensures { IfOk result (λ first. first ≡ first_meeting_earlier ranges.now) }
{
    first_meeting(alloc, ranges, &[])
}

/// The least number of a range that meets one of the others.
pub fn first_meeting_any(
    alloc: Global,
    ranges: &[Range],
    others: &[Range],
) -> Result<Option<usize>, NoMemory>
    ensures { IfOk result (λ first. first ≡ first_meeting_any ranges.now others.now) }
{
    if are_free(alloc, ranges, others)? {
        return Ok(None);
    }
    let set = union(alloc, others)?;
    Ok(first_met(&set, ranges))
}

// The least number of a range that meets one of the set.
fn first_met(taken: &DisjointRanges, ranges: &[Range]) -> Option<usize>
    ensures { result ≡ position (meets_any taken.now) ranges.now }
{
    ranges.iter().position(|range| taken.meets(*range))
}

// The numbers of all these ranges, as a set.
fn union(alloc: Global, ranges: &[Range]) -> Result<DisjointRanges, NoMemory>
    ensures { IfOk result (λ set. (n : ℕ) → covers set n ≡ covers ranges.now n) }
{
    let mut set = DisjointRanges::new(alloc);
    for range in ranges {
        set.cover(*range)?;
    }
    Ok(set)
}
