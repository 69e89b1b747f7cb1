use crate::fact::Fact;
use crate::origin::Origin;

/// On which ground a command is refused by a static rule. Own.
#[derive(Clone, Copy, Debug)]
pub enum Ground {
    /// By the command and what stands where it does.
    Standing(Fact),
    /// By what something was built that the command reads.
    Built(Origin),
    /// The command of this number submits, and no `wait` stands behind it.
    InFlight(u32),
}
