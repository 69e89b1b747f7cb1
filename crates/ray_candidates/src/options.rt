use ray_flags::RayFlags;

/// What a ray is traced with, beside the ray itself. (OpRayQueryInitializeKHR: its ray flags and
/// its cull mask; own: the number.)
#[derive(Clone, Copy)]
pub struct QueryOptions {
    /// The ray's number in its trace, which its client is told.
    pub number: u32,

    /// The ray flags.
    pub flags: RayFlags,

    /// The cull mask: an instance is seen where its own mask shares a bit with it.
    pub mask: u8,
}
