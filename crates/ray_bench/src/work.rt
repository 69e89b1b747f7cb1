ghost use Rattle.std.specs.Prelude.{◌≡◌, IsSome, IfSome};
ghost use Rattle.ray_bench.specs.Work.{name_of};
ghost use Rattle.ray_bench.specs.declared.work.Work.{Work};

use std::fmt;

/// A piece of work that can be timed. (Own.)
#[derive(Clone, Copy, Debug, PartialEq, Eq)]
pub enum Work {
    /// Each ray of the generator against each triangle of the height field.
    Pairs,
    /// Each triangle against a ray that hits it.
    Hits,
    /// Boxes of an instance against rays, of which half meet theirs.
    BoxSpans,
    /// The same, with ends that aren't in lowest terms.
    BoxReaches,
}

impl Work {
    /// The work of this name. None where it is the name of none.
    pub fn named(name: &str) -> Option<Work>
        ensures some { (w : Work) → name_of w ≡ name.now → IsSome result }
        ensures name { IfSome result (λ w. name_of w ≡ name.now) }
    {
        match name {
            "pairs" => Some(Work::Pairs),
            "hits" => Some(Work::Hits),
            "box-spans" => Some(Work::BoxSpans),
            "box-reaches" => Some(Work::BoxReaches),
            _ => None,
        }
    }
}

impl fmt::Display for Work {
    fn fmt<W: fmt::Write>(&self, f: &mut fmt::Formatter<W>) -> fmt::Result {
        match self {
            Work::Pairs => write!(f, "pairs"),
            Work::Hits => write!(f, "hits"),
            Work::BoxSpans => write!(f, "box-spans"),
            Work::BoxReaches => write!(f, "box-reaches"),
        }
    }
}
