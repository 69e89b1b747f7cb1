ghost use Rattle.ray_access.specs.Axis.{SharingIsMeeting};

/// A law: what is reached where one status stands shares something with what is reached where another
/// does exactly where their numbers on the axis meet. It does nothing.
pub fn sharing_is_meeting()
    ensures { SharingIsMeeting }
{}
