use crate::byte_range::ByteRange;

/// What an access reaches. Own.
#[derive(Clone, Copy, Debug, PartialEq, Eq)]
pub enum Reach {
    /// Bytes of a buffer.
    Bytes(ByteRange),
    /// The structure of this id, as a whole.
    Structure(u32),
    /// Bytes of a buffer of scratch memory. They are accessed, and hold nothing that is kept.
    Scratch(ByteRange),
}
