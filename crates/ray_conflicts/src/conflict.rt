/// The numbers of two parts of a command that conflict. Own.
#[derive(Clone, Copy, Debug)]
pub struct Two {
    /// The one for which the command is refused.
    pub part: u32,
    /// The other.
    pub other: u32,
}

/// In what way an info conflicts with another. Own.
#[derive(Clone, Copy, Debug)]
pub enum Way {
    /// They have one destination.
    Same,
    /// It updates from the other's destination.
    Source,
    /// Its `uses` name the other's destination.
    Use,
    /// The other reads its destination.
    Read,
    /// Their scratch memory overlaps.
    Scratch,
}

/// Which parts of a command conflict. Own.
#[derive(Clone, Copy, Debug)]
pub enum Conflict {
    /// Two infos, in this way.
    Infos(Two, Way),
    /// The destinations of two regions.
    Targets(Two),
    /// The destination of a region, and the source of one.
    Source(Two),
    /// The rays and the hits of a trace.
    Hits,
}
