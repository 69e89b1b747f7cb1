/// What a rule decides on a candidate, as it was read. (What a shader may do with a candidate of a
/// Vulkan ray query: OpRayQueryConfirmIntersectionKHR, OpRayQueryGenerateIntersectionKHR,
/// OpRayQueryTerminateKHR, or nothing. That a box is generated at its entry or its exit is own.)
#[derive(Clone, Copy, Debug, PartialEq, Eq)]
pub enum RawChoice {
    /// Nothing is done.
    Ignore,
    /// A triangle is confirmed.
    Confirm,
    /// A box is generated at the distance at which the ray enters it.
    Entry,
    /// A box is generated at the distance at which the ray leaves it.
    Exit,
    /// A box is generated at the distance numerator / denominator. Whether the two are in range is
    /// for `script_of` to say.
    At(u64, u64),
    /// The query ends.
    Terminate,
    /// A triangle is confirmed, and the query ends.
    ConfirmTerminate,
}
