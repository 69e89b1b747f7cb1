ghost use Rattle.std.specs.Prelude.{◌≡◌, length, All};
ghost use Rattle.std.specs.Option.{option_map};
ghost use Rattle.ray_bytes.specs.Slices.{record_at, records_from, AreFirst};
ghost use Rattle.ray_bytes.specs.Records.{ray_of};

use crate::fields::{long, signed};
use crate::parts::Parts;
use crate::ray_record::RayRecord;
use crate::slice::slice;
use std::marker::Model;

// How many bytes a ray has.
const SIZE: u32 = 40;

/// The rays in a buffer's bytes, read in place, one after the other. (Own)
#[derive(Debug, Drop)]
pub struct RayView<'a> {
    bytes: &'a [u8],
    start: u64,
}

impl<'a> Model for RayView<'a> {
    ghost use Rattle.ray_bytes.specs.Views.{Row};

    ghost Value = { Row };

    ghost view = { λ v. record { bytes = v.bytes.now; start = v.start } };
}

impl<'a> RayView<'a> {
    /// The rays of 40 bytes from `start` on.
    pub fn new(bytes: &'a [u8], start: u64) -> RayView<'a>
        ensures { result ≡ record { bytes = bytes.now; start = start } }
    {
        RayView { bytes, start }
    }

    /// Ray `i`. None exactly where it isn't whole.
    pub fn get(&self, i: u32) -> Option<RayRecord>
        ensures { let v = self.now in
            result ≡ option_map ray_of (record_at v.bytes v.start 40 40 i) }
    {
        let part = slice(self.bytes, self.start, SIZE, SIZE, u64::from(i))?;
        Some(RayRecord {
            origin: [signed(part, 0), signed(part, 4), signed(part, 8)],
            dir: [signed(part, 12), signed(part, 16), signed(part, 20)],
            tmin: long(part, 24),
            tmax: long(part, 32),
        })
    }

    /// The bytes of the first `count` rays, up to the first that isn't whole.
    pub fn parts(&self, count: u32) -> Parts<'a>
        ensures value { let v = self.now in
            result ≡ records_from v.bytes v.start 40 40 0 count }
        ensures first { let v = self.now in
            AreFirst (record_at v.bytes v.start 40 40) count result }
        ensures sized { All (λ part. length part ≡ 40) result }
    {
        Parts::new(self.bytes, self.start, SIZE, SIZE, count)
    }
}
