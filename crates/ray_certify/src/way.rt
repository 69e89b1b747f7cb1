use ray_flags::RayFlags;

/// How the rays of a trace are traced. Own.
#[derive(Clone, Copy, Debug)]
pub struct Way {
    /// The number of the trace command.
    pub command: u32,
    /// The flags of its rays.
    pub flags: RayFlags,
    /// Their cull mask.
    pub mask: u8,
}
