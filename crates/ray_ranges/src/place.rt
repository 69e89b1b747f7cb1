/// Where something stands: in a space, as a buffer, `size` bytes from byte `from` on.
#[derive(Clone, Copy, Debug, PartialEq, Eq)]
pub struct Place {
    /// The id of the space.
    pub space: u32,
    /// Its first byte there.
    pub from: u64,
    /// How many bytes it has.
    pub size: u64,
}
