use ray_flags::Usage;

/// A live buffer, as far as rules speak of it. (Vulkan: VkBuffer.)
#[derive(Clone, Copy, Debug, PartialEq, Eq)]
pub struct LiveBuffer {
    /// The number of the command that made it: a buffer made anew under an old id is another thing.
    pub made: u32,
    /// How many bytes it has.
    pub size: u64,
    /// What it may be used for.
    pub usage: Usage,
}
