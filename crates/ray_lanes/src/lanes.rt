/// Eight boxes beside each other: number k of `lo[axis]` and `hi[axis]` is where box k begins and
/// ends on that axis, both included. (Own.)
#[derive(Clone, Copy, Debug, PartialEq, Eq)]
pub struct Lanes8 {
    /// Where each box begins, on x, y and z.
    pub lo: [[i32; 8]; 3],
    /// Where each box ends, on x, y and z.
    pub hi: [[i32; 8]; 3],
}

/// A box that others are tested against, from `lo` to `hi` on each axis, both included. (Own.)
#[derive(Clone, Copy, Debug, PartialEq, Eq)]
pub struct Window {
    /// Where it begins, on x, y and z.
    pub lo: [i32; 3],
    /// Where it ends, on x, y and z.
    pub hi: [i32; 3],
}
