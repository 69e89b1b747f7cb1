use ray_causes::{Member, Multiple};
use ray_rules::ByteRange;

/// A number of bytes, and how many there may be at most. Own.
#[derive(Clone, Copy, Debug)]
pub struct Bound {
    /// How many there are.
    pub number: u64,
    /// How many there may be.
    pub most: u64,
}

/// The size of a structure, and that which it has to have. Own.
#[derive(Clone, Copy, Debug)]
pub struct Sizes {
    /// The id of the structure.
    pub id: u32,
    /// How many bytes it has.
    pub size: u64,
    /// How many bytes it has to have.
    pub wanted: u128,
}

/// By which number a command breaks a static rule. Own.
#[derive(Clone, Copy, Debug)]
pub enum Limit {
    /// The member has no bytes.
    Empty(Member),
    /// The member has more bytes than it may.
    Above(Member, Bound),
    /// The number at the member isn't the multiple that it has to be.
    NoMultiple(Member, Multiple),
    /// The structure at the member is smaller than it has to be.
    Small(Member, Sizes),
    /// The live buffers have so many bytes together, and with those of the buffer that is made more
    /// than they may.
    Full(u64, u64),
    /// The bytes of the structure that is made aren't whole within their buffer, of which the size
    /// is told.
    Outside(ByteRange, u64),
    /// They meet those of the structure of this id, which the command of this number made.
    Overlaps(ByteRange, u32, u32),
}
