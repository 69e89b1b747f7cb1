/// The state of the command buffer. (Vulkan, "Command Buffer Lifecycle"; own: the one command
/// buffer of a recording is idle again once it is submitted.)
#[derive(Clone, Copy, Debug, PartialEq, Eq)]
pub enum Phase {
    /// No command buffer is begun.
    Idle,
    /// The command buffer is being recorded.
    Recording,
    /// The command buffer is recorded, and not submitted yet.
    Ended,
}
