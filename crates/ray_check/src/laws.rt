ghost use Rattle.ray_check.specs.Reaching.{KeptIsWithinBuffers};

/// A law: where a command keeps V4 and V12, each byte that it reads or writes, on the device and
/// for the host, is in its buffer. It does nothing. Own.
pub fn kept_is_within_buffers()
    ensures { KeptIsWithinBuffers }
{}
