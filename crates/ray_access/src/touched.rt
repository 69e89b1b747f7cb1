use ray_ranges::Range;
use ray_rules::AccessType;

/// One access of a command: how, and the numbers that what it reaches has on the axis. Own.
#[derive(Clone, Copy, Debug, PartialEq, Eq)]
pub struct Touched {
    /// How it reads or writes.
    pub access: AccessType,
    /// The numbers of what it reaches: none where that isn't live.
    pub range: Range,
    /// The number of the command that made the buffer in which it reaches them: none where it
    /// reaches a structure, or the buffer isn't live.
    pub buffer: Option<u32>,
}
