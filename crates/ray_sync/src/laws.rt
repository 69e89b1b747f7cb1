ghost use Rattle.ray_sync.specs.Covering.{CoveredIsOrdered};

/// A law: what a command wrote is covered to an access at a stage only where the command is ordered
/// before what is done at that stage. It does nothing.
pub fn covered_is_ordered()
    ensures { CoveredIsOrdered }
{}
