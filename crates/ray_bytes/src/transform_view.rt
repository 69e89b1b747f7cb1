ghost use Rattle.std.specs.Prelude.{◌≡◌};
ghost use Rattle.ray_bytes.specs.Slices.{record_at};
ghost use Rattle.ray_bytes.specs.Records.{transform_of};

use crate::slice::slice;
use crate::transform::transform;
use std::marker::Model;

/// A transform in a buffer's bytes, read in place. (VkTransformMatrixKHR, with whole numbers)
/// Contracts see it as its 48 bytes.
#[derive(Debug, Drop)]
pub struct TransformView<'a> {
    bytes: &'a [u8],
}

impl<'a> Model for TransformView<'a> {
    ghost use Rattle.std.specs.Prelude.{◌≡◌, ℕ, List, length};

    ghost Value = { List ℕ };

    ghost view = { λ v. v.bytes.now };

    ghost invariant = { λ v. length v.bytes.now ≡ 48 };
}

impl<'a> TransformView<'a> {
    /// The transform at `start`. None exactly where not all of its 48 bytes are there.
    pub fn new(bytes: &'a [u8], start: u64) -> Option<TransformView<'a>>
        ensures { result ≡ record_at bytes.now start 0 48 0 }
    {
        let bytes = slice(bytes, start, 0, 48, 0)?;
        Some(TransformView { bytes })
    }

    /// The three rows of four entries.
    pub fn get(&self) -> [i32; 12]
        ensures { result ≡ transform_of self.now }
    {
        transform(self.bytes)
    }
}
