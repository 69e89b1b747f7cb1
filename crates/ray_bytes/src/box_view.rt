ghost use Rattle.std.specs.Prelude.{◌≡◌, length, All};
ghost use Rattle.std.specs.Option.{option_map};
ghost use Rattle.ray_bytes.specs.Slices.{record_at, records_from, AreFirst};
ghost use Rattle.ray_bytes.specs.Records.{box_of};

use crate::fields::signed;
use crate::parts::Parts;
use crate::slice::slice;
use std::marker::Model;

// How many bytes a box has.
const SIZE: u32 = 24;

/// The boxes in a buffer's bytes, read in place: number i begins at `start + i * stride`.
/// (VkAabbPositionsKHR, with whole numbers)
#[derive(Debug, Drop)]
pub struct BoxView<'a> {
    bytes: &'a [u8],
    start: u64,
    stride: u32,
}

impl<'a> Model for BoxView<'a> {
    ghost use Rattle.ray_bytes.specs.Views.{Boxes};

    ghost Value = { Boxes };

    ghost view = { λ v. record { bytes = v.bytes.now; start = v.start; stride = v.stride } };
}

impl<'a> BoxView<'a> {
    /// The boxes of 24 bytes from `start` on, `stride` bytes apart.
    pub fn new(bytes: &'a [u8], start: u64, stride: u32) -> BoxView<'a>
        ensures { result ≡ record { bytes = bytes.now; start = start; stride = stride } }
    {
        BoxView {
            bytes,
            start,
            stride,
        }
    }

    /// Box `i`: its least x, y and z, then its greatest. None exactly where it isn't whole.
    pub fn get(&self, i: u64) -> Option<[i32; 6]>
        ensures { let v = self.now in
            result ≡ option_map box_of (record_at v.bytes v.start v.stride 24 i) }
    {
        let part = slice(self.bytes, self.start, self.stride, SIZE, i)?;
        Some([
            signed(part, 0),
            signed(part, 4),
            signed(part, 8),
            signed(part, 12),
            signed(part, 16),
            signed(part, 20),
        ])
    }

    /// The bytes of the first `count` boxes, up to the first that isn't whole.
    pub fn parts(&self, count: u32) -> Parts<'a>
        ensures value { let v = self.now in
            result ≡ records_from v.bytes v.start v.stride 24 0 count }
        ensures first { let v = self.now in
            AreFirst (record_at v.bytes v.start v.stride 24) count result }
        ensures sized { All (λ part. length part ≡ 24) result }
    {
        Parts::new(self.bytes, self.start, self.stride, SIZE, count)
    }
}
