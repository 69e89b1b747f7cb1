ghost use Rattle.std.specs.Prelude.{◌≡◌, ◌<◌, ◌^◌, IsOk, IfOk, IfErr};
ghost use Rattle.std.specs.Str.Parse.{IsNumeral, digits_value, without_leading_plus};
ghost use Rattle.ray_bench.specs.declared.work.Work.{Work};
ghost use Rattle.ray_bench.specs.Work.{name_of};

use crate::bench_error::BenchError;
use crate::work::Work;

/// A piece of work and how often to do it. (Own.)
#[derive(Clone, Copy, Debug, PartialEq, Eq)]
pub struct Job {
    /// What to do.
    pub work: Work,
    /// How many pairs of a ray and a triangle, or a box, to test.
    pub number: usize,
}

impl Job {
    /// A little of the work `pairs`. Its hits, by hand: the generator's rays come again after 72,
    /// since 37 and 53 share no divisor with 72, so 9216 = 72 * 128 pairs are one period of the
    /// rays, each with every triangle. In a period x takes each value below 72 once, and y as well.
    /// The field lies over 0 <= x <= 64 and 0 <= y <= 64. A ray straight down inside it hits
    /// exactly one triangle, also where two share an edge (none goes through a vertex: since
    /// y = 17 x + 22 mod 72, x and y are never both multiples of 8). On the border the edge rule
    /// decides by the sign of the edge's normal, which for a hit has to be that of the determinant,
    /// negative. At x = 0 the normal's x is negative, and at y = 0, where its x is zero, its y is:
    /// hits. At x = 64 and y = 64 these are positive: no hits. So the rays with x < 64 and y < 64
    /// hit once each. Of the 72 rays 8 have x >= 64, 8 have y >= 64, and one has both, that at
    /// (66, 64). That leaves 72 - 8 - 8 + 1 = 57 hits.
    pub const LITTLE_PAIRS: Job = Job {
        work: Work::Pairs,
        number: 9216,
    };

    /// A little of the work `hits`: twice round the 128 pairs, and 44 of them again. Each is a hit,
    /// since in its cell the ray goes through (5, 3), inside the lower triangle of (0, 0), (8, 0)
    /// and (8, 8), or through (3, 5), inside the upper one of (0, 0), (8, 8) and (0, 8). So there
    /// are 300 hits.
    pub const LITTLE_HITS: Job = Job {
        work: Work::Hits,
        number: 300,
    };

    /// A little of the work `box-spans`: twice round the 128 spots, and 44 of them again. The ray
    /// of an even number meets its box, since in its cell it goes down through (5, 3), and that of
    /// an odd number doesn't, since it goes down through (3, 5) in a cell beside that of its box.
    /// So there are 64 + 64 + 22 = 150 hits.
    pub const LITTLE_BOX_SPANS: Job = Job {
        work: Work::BoxSpans,
        number: 300,
    };

    /// A little of the work `box-reaches`, on the same spots.
    pub const LITTLE_BOX_REACHES: Job = Job {
        work: Work::BoxReaches,
        number: 300,
    };

    /// The job of two words: the name of a work, and a number in decimal digits, with or without a
    /// plus in front. The only error is `BadWords`.
    pub fn parse(work: &str, number: &str) -> Result<Job, BenchError>
        ensures work { IfOk result (λ job. name_of job.work ≡ work.now) }
        ensures number { let digits = without_leading_plus number.now in
            IfOk result (λ job. job.number ≡ digits_value 10 digits) }
        ensures accepts { let digits = without_leading_plus number.now in
            (w : Work) → name_of w ≡ work.now
            → IsNumeral 10 digits → digits_value 10 digits < 2 ^ 64 → IsOk result }
        ensures refuses { IfErr result (λ e. e ≡ BenchError.BadWords) }
    {
        let work = Work::named(work).ok_or(BenchError::BadWords)?;
        match number.parse::<usize>() {
            Ok(number) => Ok(Job { work, number }),
            Err(_) => Err(BenchError::BadWords),
        }
    }
}
