//! Laws of the claim rule. Nothing here runs: each is a function with an empty body, and its
//! contract is the law.
ghost use Rattle.ray_claim.specs.Laws.{GivenOnce, DrawnApart};

/// At any moment a number below n stands in no seat's list while the word is at most this number,
/// and from then on once in all lists together. A draw's number is the word that it found, so no
/// other draw gives it, before or after. (Own.)
pub fn given_once()
    ensures { GivenOnce }
{}

/// At any moment two seats have no number in common, and neither has one twice. (Own.)
pub fn drawn_apart()
    ensures { DrawnApart }
{}
