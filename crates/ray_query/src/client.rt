use crate::candidate::Candidate;
use crate::decision::Decision;

/// Whoever decides on candidates, as a shader does. Own.
pub trait Client {
    ghost use Rattle.std.specs.Prelude.{◌≡◌};
    ghost use Rattle.ray_query.specs.declared.candidate.Candidate.{Candidate};
    ghost use Rattle.ray_query.specs.declared.decision.Decision.{Decision};

    /// What the client means: its decision, as a function of the candidate.
    ghost meaning: { Self → Candidate → Decision };

    /// The decision on a candidate.
    fn decide(&self, c: &Candidate) -> Decision
        ensures { result ≡ meaning self.now c.now };
}
