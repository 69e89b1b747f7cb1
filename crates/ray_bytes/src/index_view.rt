ghost use Rattle.std.specs.Prelude.{◌≡◌, length, All};
ghost use Rattle.std.specs.Option.{option_map};
ghost use Rattle.ray_bytes.specs.Slices.{record_at, records_from, AreFirst};
ghost use Rattle.ray_bytes.specs.Records.{index_size, index_of};

use crate::fields::{half, word};
use crate::parts::Parts;
use crate::slice::slice;
use std::marker::Model;

/// The indices in a buffer's bytes, read in place, one after the other. (VkIndexType)
#[derive(Debug, Drop)]
pub struct IndexView<'a> {
    bytes: &'a [u8],
    start: u64,
    wide: bool,
}

impl<'a> Model for IndexView<'a> {
    ghost use Rattle.ray_bytes.specs.Views.{Indices};

    ghost Value = { Indices };

    ghost view = { λ v. record { bytes = v.bytes.now; start = v.start; wide = v.wide } };
}

impl<'a> IndexView<'a> {
    /// The indices from `start` on: of 32 bits where `wide`, else of 16.
    pub fn new(bytes: &'a [u8], start: u64, wide: bool) -> IndexView<'a>
        ensures { result ≡ record { bytes = bytes.now; start = start; wide = wide } }
    {
        IndexView { bytes, start, wide }
    }

    /// Index `i`. None exactly where it isn't whole.
    pub fn get(&self, i: u64) -> Option<u32>
        ensures { let v = self.now in let size = index_size v.wide in
            result ≡ option_map (index_of v.wide) (record_at v.bytes v.start size size i) }
    {
        let part = slice(self.bytes, self.start, self.size(), self.size(), i)?;
        Some(if self.wide {
            word(part, 0)
        } else {
            u32::from(half(part, 0))
        })
    }

    /// The bytes of the first `count` indices, up to the first that isn't whole.
    pub fn parts(&self, count: u32) -> Parts<'a>
        ensures value { let v = self.now in let size = index_size v.wide in
            result ≡ records_from v.bytes v.start size size 0 count }
        ensures first { let v = self.now in let size = index_size v.wide in
            AreFirst (record_at v.bytes v.start size size) count result }
        ensures sized { All (λ part. length part ≡ index_size self.now.wide) result }
    {
        Parts::new(self.bytes, self.start, self.size(), self.size(), count)
    }

    // How many bytes an index has.
    fn size(&self) -> u32
        ensures { result ≡ index_size self.now.wide }
    {
        if self.wide { 4 } else { 2 }
    }
}
