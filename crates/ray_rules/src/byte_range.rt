/// Bytes of a buffer: so many from an offset on. Numbers of 128 bits, so that no sum of a
/// recording's numbers wraps. Own.
#[derive(Clone, Copy, Debug, PartialEq, Eq)]
pub struct ByteRange {
    /// The buffer's id.
    pub buffer: u32,
    /// The number of the first byte.
    pub from: u128,
    /// How many bytes.
    pub size: u128,
}
