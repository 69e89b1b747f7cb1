ghost use Rattle.std.specs.Prelude.{◌≡◌, max};
ghost use Rattle.ray_queues.specs.Numbers.{all_queues, all_stages, greater_queues, greater_stages};

/// A number for each stage of the device.
#[derive(Clone, Copy, Debug, PartialEq, Eq)]
pub struct PerStage {
    /// That of transfers.
    pub transfer: u32,
    /// That of builds.
    pub build: u32,
    /// That of copies of structures.
    pub structure_copy: u32,
    /// That of traces.
    pub compute: u32,
}

/// A number for each stage of each queue.
#[derive(Clone, Copy, Debug, PartialEq, Eq)]
pub struct PerQueue {
    /// Those of queue 0.
    pub zero: PerStage,
    /// Those of queue 1.
    pub one: PerStage,
    /// Those of queue 2.
    pub two: PerStage,
    /// Those of queue 3.
    pub three: PerStage,
}

impl PerStage {
    // This number for each.
    pub(crate) fn all(number: u32) -> PerStage
        ensures { result ≡ all_stages number }
    {
        PerStage {
            transfer: number,
            build: number,
            structure_copy: number,
            compute: number,
        }
    }

    // For each the greater number.
    fn greater(self, other: PerStage) -> PerStage
        ensures { result ≡ greater_stages self other }
    {
        PerStage {
            transfer: greater(self.transfer, other.transfer),
            build: greater(self.build, other.build),
            structure_copy: greater(self.structure_copy, other.structure_copy),
            compute: greater(self.compute, other.compute),
        }
    }
}

impl PerQueue {
    // This number for each.
    pub(crate) fn all(number: u32) -> PerQueue
        ensures { result ≡ all_queues number }
    {
        let numbers = PerStage::all(number);
        PerQueue {
            zero: numbers,
            one: numbers,
            two: numbers,
            three: numbers,
        }
    }

    // For each the greater number.
    pub(crate) fn greater(self, other: PerQueue) -> PerQueue
        ensures { result ≡ greater_queues self other }
    {
        PerQueue {
            zero: self.zero.greater(other.zero),
            one: self.one.greater(other.one),
            two: self.two.greater(other.two),
            three: self.three.greater(other.three),
        }
    }
}

// The greater of two numbers.
pub(crate) fn greater(a: u32, b: u32) -> u32
    ensures { result ≡ max a b }
{
    if a < b { b } else { a }
}
