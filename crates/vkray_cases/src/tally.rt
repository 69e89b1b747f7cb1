use crate::judging::Judged;

/// How many cases and answers were looked at, and how many differ.
#[derive(Clone, Copy, Debug, PartialEq, Eq)]
pub struct Tally {
    /// The files.
    pub cases: u64,
    /// The answers that they want.
    pub answers: u64,
    /// The answers that differ from those, and the files that are no case.
    pub differing: u64,
}

impl Tally {
    ghost use Rattle.std.specs.Prelude.{◌≡◌, length};
    ghost use Rattle.vkray_cases.specs.Tallies.{differing_in, together, is_clean};

    /// Nothing was looked at.
    pub const NONE: Tally = Tally {
        cases: 0,
        answers: 0,
        differing: 0,
    };

    /// A file that is no case.
    pub const NO_CASE: Tally = Tally {
        cases: 1,
        answers: 0,
        differing: 1,
    };

    /// One case, whose answers were judged so.
    pub fn of_case(judged: &[Judged]) -> Tally
        ensures case { result.cases ≡ 1 }
        ensures answers { result.answers ≡ length judged.now }
        ensures differing { result.differing ≡ differing_in judged.now }
    {
        let differing = judged.iter().filter(|judged| !judged.is_met).count();
        Tally {
            cases: 1,
            answers: judged.len() as u64,
            differing: differing as u64,
        }
    }

    /// Both together. A count ends at the greatest `u64`.
    pub fn and(self, other: Tally) -> Tally
        ensures { result ≡ together self other }
    {
        Tally {
            cases: self.cases.saturating_add(other.cases),
            answers: self.answers.saturating_add(other.answers),
            differing: self.differing.saturating_add(other.differing),
        }
    }

    /// Whether nothing differs.
    pub fn is_clean(self) -> bool
        ensures { result ≡ is_clean self }
    {
        self.differing == 0
    }
}
