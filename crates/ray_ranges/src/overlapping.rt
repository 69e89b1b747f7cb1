ghost use Rattle.std.specs.Prelude.{◌≡◌, ◌≤◌, ◌+◌, ◌^◌, IfOk, map};
ghost use Rattle.std.specs.List.{All};
ghost use Rattle.ray_ranges.specs.Addresses.{addresses_of};
ghost use Rattle.ray_ranges.specs.Places.{first_overlapping};

use crate::addresses::addresses;
use crate::first::first_meeting_earlier;
use crate::place::Place;
use crate::range::Range;
use std::alloc::{AllocError as NoMemory, Global};

/// The least number of a place that shares a byte with one that stands before it.
pub fn first_overlapping(alloc: Global, places: &[Place]) -> Result<Option<usize>, NoMemory>
    ensures { IfOk result (λ first. first ≡ first_overlapping places.now) }
{
    let ranges = each_addresses(alloc, places)?;
    first_meeting_earlier(alloc, ranges.as_slice())
}

// The addresses of each place.
fn each_addresses(alloc: Global, places: &[Place]) -> Result<Vec<Range>, NoMemory>
    ensures value { IfOk result (λ ranges. ranges.items ≡ map addresses_of places.now) }
    ensures fit { IfOk result (λ _. All (λ place. place.from + place.size ≤ 2 ^ 66) places.now) }
{
    let mut ranges = Vec::new(alloc);
    for place in places {
        ranges.push(addresses(*place))?;
    }
    Ok(ranges)
}
