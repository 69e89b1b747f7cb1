ghost use Rattle.ray_query.specs.Laws.{CommitsAreChosen, ConfirmingCommitsClosest};
ghost use Rattle.ray_query.specs.Laws.{IgnoringCommitsOpaque};
ghost use Rattle.ray_query.specs.Laws.{LeavesOut, OverStays, PassedStays, PlaysInParts};

/// The law of a client that ignores: only opaque triangles commit, and of these the closest.
/// (Vulkan, "Ray Traversal": an opaque triangle is confirmed without asking.)
pub fn ignoring_law()
    ensures { IgnoringCommitsOpaque }
{}

/// The law of a client that confirms: the closest triangle commits, opaque or not, with and without
/// `terminate_on_first_hit`, and no box does. (Vulkan, "Ray Traversal": the closest hit.)
pub fn confirming_law()
    ensures { ConfirmingCommitsClosest }
{}

/// The law of choice: what is committed was found, and it is an opaque triangle, or the client's
/// decision on it commits it at that distance. (Vulkan, "Ray Queries": nothing is committed unasked
/// but opaque triangles.)
pub fn chosen_law()
    ensures { CommitsAreChosen }
{}

/// The law of what is passed over: it stays so, and it may be left out. (Own; it is why a trace
/// need not look at what can't be nearer than the committed hit.)
pub fn passing_law()
    ensures stays { PassedStays }
    ensures left_out { LeavesOut }
{}

/// The law of parts: playing a list in two parts is playing it whole, so a query may stop and go
/// on; and a query that is over stays as it is. (Own.)
pub fn parts_law()
    ensures parts { PlaysInParts }
    ensures over { OverStays }
{}
