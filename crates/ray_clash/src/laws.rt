ghost use Rattle.ray_clash.specs.Barriers.{BarrierMends};
ghost use Rattle.ray_clash.specs.Telling.{WordsAreRead};

/// The law of the barrier: the one from the earlier access of a clash to the later one, put in
/// between the two commands, covers and orders what was missing; and the words
/// in which it is told are read as its sets. (Vulkan, "Memory Barriers".)
pub fn barrier_law()
    ensures mends { BarrierMends }
    ensures words { WordsAreRead }
{}
