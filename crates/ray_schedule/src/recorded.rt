ghost use Rattle.ray_schedule.specs.Units.{Work};

/// What a device is to run: its units in recording order, the memory in which it starts, and the
/// order of its commands. All of it is for contracts alone.
pub trait Recorded {
    /// The locations of a memory.
    ghost Location: { Type 0 };

    /// What each location holds.
    ghost Held: { Location → Type 0 };

    /// What a unit computes: an output, or a fault.
    ghost Outcome: { Type 0 };

    /// Its units, how many there are, the memory in which a run begins, and the order of its
    /// commands.
    ghost work: { Self → Work Held Outcome };
}
