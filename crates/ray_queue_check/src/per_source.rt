ghost use Rattle.std.specs.Prelude.{◌≡◌, if◌then◌else◌, max};
ghost use Rattle.ray_queue_check.specs.Numbers.{all_ways, greater_sources, greater_ways};

use ray_hazards::PerWay;

/// A number for each way of writing of each queue.
#[derive(Clone, Copy, Debug, PartialEq, Eq)]
pub(crate) struct PerSource {
    pub(crate) zero: PerWay,
    pub(crate) one: PerWay,
    pub(crate) two: PerWay,
    pub(crate) three: PerWay,
}

impl PerSource {
    // For each the greater number.
    pub(crate) fn greater(self, other: PerSource) -> PerSource
        ensures { result ≡ greater_sources self other }
    {
        PerSource {
            zero: greater_ways(self.zero, other.zero),
            one: greater_ways(self.one, other.one),
            two: greater_ways(self.two, other.two),
            three: greater_ways(self.three, other.three),
        }
    }
}

// For each way of writing the greater number.
fn greater_ways(a: PerWay, b: PerWay) -> PerWay
    ensures { result ≡ greater_ways a b }
{
    PerWay {
        transfers: greater(a.transfers, b.transfers),
        builds: greater(a.builds, b.builds),
        properties: greater(a.properties, b.properties),
        copies: greater(a.copies, b.copies),
        serialized: greater(a.serialized, b.serialized),
        traces: greater(a.traces, b.traces),
    }
}

// The greater of two numbers.
pub(crate) fn greater(a: u32, b: u32) -> u32
    ensures { result ≡ max a b }
{
    if a < b { b } else { a }
}

// These numbers for the own queue, and one number for another.
pub(crate) fn own_or(own: bool, limits: PerWay, number: u32) -> PerWay
    ensures { result ≡ (if own then limits else all_ways number) }
{
    if own { limits } else { all_ways(number) }
}

// One number for each way of writing.
fn all_ways(number: u32) -> PerWay
    ensures { result ≡ all_ways number }
{
    PerWay {
        transfers: number,
        builds: number,
        properties: number,
        copies: number,
        serialized: number,
        traces: number,
    }
}
