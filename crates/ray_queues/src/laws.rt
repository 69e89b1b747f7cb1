ghost use Rattle.ray_queues.specs.Covering.{QueueCoveredIsOrdered, QueueWaitsOrder};
ghost use Rattle.ray_queues.specs.OneQueue.{OneQueueHasBarriers};

/// A law: where each submission goes to queue 0 and waits for nothing, the order over queues is the
/// order of barriers and waits. It does nothing.
pub fn one_queue_has_barriers()
    ensures { OneQueueHasBarriers }
{}

/// A law: what is covered over queues to an access of the device is ordered before it, and a `wait`
/// of the host orders all before it before all that the device does later. It does nothing.
pub fn queue_covered_is_ordered()
    ensures covered { QueueCoveredIsOrdered }
    ensures wait { QueueWaitsOrder }
{}
