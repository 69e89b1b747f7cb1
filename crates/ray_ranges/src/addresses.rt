ghost use Rattle.std.specs.Prelude.{◌≡◌, ◌≤◌, ◌+◌, ◌^◌};
ghost use Rattle.ray_ranges.specs.Addresses.{addresses_of, all_addresses};

use crate::place::Place;
use crate::range::Range;

// How many addresses each space has.
const SPACE: u128 = 1 << 66;

// The addresses of a place: each space has its own.
pub(crate) fn addresses(place: Place) -> Range
    ensures value { result ≡ addresses_of place }
    ensures fits { place.from + place.size ≤ 2 ^ 66 }
{
    let from = u128::from(place.space) * SPACE + u128::from(place.from);
    Range {
        from,
        end: from + u128::from(place.size),
    }
}

// The addresses of a whole space.
pub(crate) fn whole(space: u32) -> Range
    ensures { result ≡ all_addresses space }
{
    let from = u128::from(space) * SPACE;
    Range {
        from,
        end: from + SPACE,
    }
}
