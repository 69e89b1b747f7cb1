ghost use Rattle.ray_action.specs.Touching.{ActionsTouchWithin};
ghost use Rattle.ray_action.specs.Laws.{OutcomesAreLocal};

/// A law: in two memories that hold the same where an action reads, it has the same outcome. It
/// does nothing.
pub fn outcomes_are_local()
    ensures { OutcomesAreLocal }
{}

/// A law: what an action reads and writes is among what the rules say that its piece reads and
/// writes. It does nothing.
pub fn actions_touch_within()
    ensures { ActionsTouchWithin }
{}
