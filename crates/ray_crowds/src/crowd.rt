use crate::spot::Spot;

/// How many there are, and how many there may be. Own.
#[derive(Clone, Copy, Debug)]
pub struct Count {
    /// How many there are.
    pub number: u128,
    /// How many there may be.
    pub most: u32,
}

/// The two numbers of a distance at which a rule generates a box. Own.
#[derive(Clone, Copy, Debug)]
pub struct Distance {
    /// The numerator.
    pub num: u64,
    /// The denominator.
    pub den: u64,
}

/// What of a script isn't allowed. Own.
#[derive(Clone, Copy, Debug)]
pub enum OfScript {
    /// There are so many rules.
    Rules(Count),
    /// The distance of the rule of this number is out of range.
    Distance(u32, Distance),
}

/// Of what a command has more than it may. Own.
#[derive(Clone, Copy, Debug)]
pub enum Crowd {
    /// Entries of the list at the spot.
    Entries(Spot, Count),
    /// Primitives of the list at the spot.
    Primitives(Spot, Count),
    /// Live structures, with the one that it makes.
    Structures(Count),
    /// Rays.
    Rays(Count),
    /// What of its script isn't allowed.
    OfScript(OfScript),
}
