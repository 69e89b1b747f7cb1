ghost use Rattle.std.specs.Prelude.{◌≡◌, length, All};
ghost use Rattle.ray_bytes.specs.Slices.{record_at, records_from, AreFirst};

use crate::slice::slice;
use std::marker::Model;

/// The bytes of the records of a view, in order. It ends at the first record that isn't whole, or
/// after the count that was asked for. Contracts see it as the list of what is left.
#[derive(Drop)]
pub struct Parts<'a> {
    bytes: &'a [u8],
    start: u64,
    stride: u32,
    width: u32,
    next: u64,
    left: u32,
}

impl<'a> Model for Parts<'a> {
    ghost use Rattle.std.specs.Prelude.{ℕ, ◌+◌, ◌^◌, ◌≤◌, List};
    ghost use Rattle.ray_bytes.specs.Slices.{records_from};

    ghost Value = { List (List ℕ) };

    ghost view = { λ p. records_from p.bytes.now p.start p.stride p.width p.next p.left };

    ghost invariant = { λ p. p.next + p.left ≤ 2 ^ 32 };
}

impl<'a> Parts<'a> {
    // The parts of `count` records of `width` bytes.
    pub(crate) fn new(bytes: &'a [u8], start: u64, stride: u32, width: u32, count: u32) -> Parts<'a>
        ensures value { result ≡ records_from bytes.now start stride width 0 count }
        ensures first { AreFirst (record_at bytes.now start stride width) count result }
        ensures sized { All (λ part. length part ≡ width) result }
    {
        Parts {
            bytes,
            start,
            stride,
            width,
            next: 0,
            left: count,
        }
    }
}

impl<'a> Iterator for Parts<'a> {
    ghost use Rattle.std.specs.Iterator.{YieldsFirstRef, item_count};

    type Item = &'a [u8];

    ghost next_gives = { YieldsFirstRef (λ parts. parts) };

    ghost remaining = { item_count (λ parts. parts) };

    fn next(&mut self) -> Option<&'a [u8]> {
        self.left = self.left.checked_sub(1)?;
        let part = slice(self.bytes, self.start, self.stride, self.width, self.next);
        self.next += 1;
        part
    }
}
