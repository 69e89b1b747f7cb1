ghost use Rattle.std.specs.Prelude.{◌≡◌, ◌<◌, ◌↔◌, ◌||◌, ℕ, true, IsTrue};
ghost use Rattle.ray_ranges.specs.Meeting.{has, meets, ShareNumber};

/// The whole numbers from `from` on and below `end`; none where `end` isn't above `from`.
#[derive(Clone, Copy, Debug, PartialEq, Eq)]
pub struct Range {
    /// Its least number.
    pub from: u128,
    /// The number after its greatest.
    pub end: u128,
}

impl Range {
    /// Whether some number is in both ranges.
    pub fn meets(self, other: Range) -> bool
        ensures value { result ≡ meets self other }
        ensures shared { IsTrue result ↔ ShareNumber self other }
    {
        self.from < other.end
            && other.from < self.end
            && self.from < self.end
            && other.from < other.end
    }

    // The least range that has the numbers of both.
    pub(crate) fn joined(self, other: Range) -> Range
        requires { meets self other ≡ true }
        ensures some { result.from < result.end }
        ensures numbers { (n : ℕ) → has n result ≡ (has n self || has n other) }
    {
        let from = if self.from < other.from {
            self.from
        } else {
            other.from
        };
        let end = if self.end < other.end {
            other.end
        } else {
            self.end
        };
        Range { from, end }
    }
}
