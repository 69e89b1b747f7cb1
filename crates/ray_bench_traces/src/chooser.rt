ghost use Rattle.std.specs.Prelude.{◌≡◌};
ghost use Rattle.ray_bench_traces.specs.Choosing.{number_of, on_box, on_triangle};

use ray_flags::Kind;
use ray_geom::Frac;
use ray_query::{Candidate, Client, Decision};

/// A client that decides nothing: it is never asked about opaque triangles. (Own.)
#[derive(Drop)]
pub(crate) struct Unasked {}

impl Client for Unasked {
    ghost use Rattle.ray_query.specs.declared.decision.Decision.TheVariants.{Ignore};

    ghost meaning = { λ client c. Ignore };

    fn decide(&self, _c: &Candidate) -> Decision {
        Decision::Ignore
    }
}

/// A client whose decision depends on the candidate: on its numbers, on how many were offered
/// before, and on a way to choose. (Own.)
#[derive(Drop)]
pub(crate) struct Chooser {
    /// The way to choose.
    pub(crate) way: u32,
    /// Where it generates some boxes.
    pub(crate) at: Frac,
}

impl Client for Chooser {
    ghost use Rattle.ray_bench_traces.specs.Choosing.{decision_on};

    ghost meaning = { λ chooser c. decision_on chooser.way chooser.at c c.found.kind };

    fn decide(&self, c: &Candidate) -> Decision {
        let number = number_of(self.way, *c);
        match c.found.kind {
            Kind::Triangle => on_triangle(number),
            Kind::Aabb => on_box(number, self.at),
        }
    }
}

// The number of a candidate, below 8.
fn number_of(way: u32, c: Candidate) -> u64
    ensures { result ≡ number_of way c }
{
    let (primitive, instance) = (u64::from(c.found.primitive), u64::from(c.found.instance));
    (u64::from(way) + primitive + instance + c.nth % 8) % 8
}

// The decision on a triangle.
fn on_triangle(number: u64) -> Decision
    ensures { result ≡ on_triangle number }
{
    if number < 4 {
        Decision::Confirm
    } else if number < 7 {
        Decision::Ignore
    } else {
        Decision::ConfirmTerminate
    }
}

// The decision on a box.
fn on_box(number: u64, at: Frac) -> Decision
    ensures { result ≡ on_box number at }
{
    if number < 2 {
        Decision::GenerateEntry
    } else if number < 4 {
        Decision::GenerateExit
    } else if number < 6 {
        Decision::GenerateAt(at)
    } else if number < 7 {
        Decision::Ignore
    } else {
        Decision::Terminate
    }
}
