use crate::place::Place;
use crate::rule::Rule;

/// The one command for which a recording is refused, with the rule that it breaks and where.
#[derive(Clone, Copy, Debug, PartialEq, Eq)]
pub struct Refusal {
    /// The command's number, from 0.
    pub command: u32,
    /// The rule that it breaks.
    pub rule: Rule,
    /// Where in the command.
    pub place: Place,
}
