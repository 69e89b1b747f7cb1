ghost use Rattle.std.specs.Prelude.{ℕ};
ghost use Rattle.ray_chains.specs.Fronts.{FrontsAreBounded, FrontsAreExact};
ghost use Rattle.ray_chains.specs.Fronts.{FrontsGoThrough, LaterStepsCount};
ghost use Rattle.ray_chains.specs.Keeping.{ChainsStay, KeptStays, NothingIsKept, TablesStay};
ghost use Rattle.ray_chains.specs.OneQueue.{OneQueueHasSets};
ghost use Rattle.ray_chains.specs.Overrides.{OverridesAreExact};
ghost use Rattle.ray_chains.specs.QueueLaws.{CoveredIsOrdered, CrossesAlike, FarAlike, SentAlike};
ghost use Rattle.ray_chains.specs.QueueLaws.{SignalsAlike, SignalsCarry};
ghost use Rattle.ray_chains.specs.QueueLaws.{ThingsAlike, ThingsSince, WaitsOrder};
ghost use Rattle.ray_chains.specs.Queues.{Node};
ghost use Rattle.ray_chains.specs.Waves.{WavesAreLongest};

/// The law of fronts: what has reached a node is what was done below the node's front. With it the
/// bounds by which all else is proved, that fronts go through maps of nodes, and that only later
/// steps count. It does nothing.
pub fn fronts_are_exact()
    ensures exact { FrontsAreExact Node }
    ensures bounded { FrontsAreBounded Node }
    ensures through { FrontsGoThrough Node Node }
    ensures later { LaterStepsCount Node }
{}

/// The law of overrides: of a thing on which some steps act alone it is enough to keep its fronts
/// just after the last such step. It does nothing.
pub fn overrides_are_exact()
    ensures { OverridesAreExact Node }
{}

/// The law of waves: by numbered kinds, each command's wave is the length of the longest chain of
/// ordered commands that ends there. It does nothing.
pub fn waves_are_longest()
    ensures { WavesAreLongest ℕ }
{}

/// With one queue, and no wait for semaphores, nodes and steps give the three sets of the rules. It
/// does nothing.
pub fn one_queue_has_sets()
    ensures { OneQueueHasSets }
{}

/// Barriers limited to buffers: a buffer's fronts follow from those just after the last barrier
/// that was limited to it, and are those of everything where there was none. It does nothing.
pub fn things_since()
    ensures since { ThingsSince }
    ensures alike { ThingsAlike }
{}

/// What is covered is ordered, and a wait of the host orders all before it before all that a device
/// does later. It does nothing.
pub fn covered_is_ordered()
    ensures covered { CoveredIsOrdered }
    ensures wait { WaitsOrder }
{}

/// Between queues one number says all: at the device of another queue neither stages nor accesses
/// nor the thing matter, and a signal carries one number. It does nothing.
pub fn queues_cross_alike()
    ensures crosses { CrossesAlike }
    ensures far { FarAlike }
    ensures sent { SentAlike }
    ensures signals { SignalsAlike }
    ensures carry { SignalsCarry }
{}

/// What is kept of a recording's fronts stays as it is where an event has nothing to do with it. It
/// does nothing.
pub fn fronts_stay()
    ensures tables { TablesStay }
    ensures chains { ChainsStay }
    ensures kept { KeptStays }
    ensures first { NothingIsKept }
{}
