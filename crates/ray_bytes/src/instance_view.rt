ghost use Rattle.std.specs.Prelude.{◌≡◌, ◌≤◌, length, All};
ghost use Rattle.std.specs.Option.{option_map};
ghost use Rattle.ray_bytes.specs.Slices.{record_at, records_from, AreFirst};
ghost use Rattle.ray_bytes.specs.Records.{instance_of};

use crate::fields::{long, word};
use crate::instance_record::InstanceRecord;
use crate::parts::Parts;
use crate::slice::slice;
use crate::transform::transform;
use std::marker::Model;

// How many bytes an instance has.
const SIZE: u32 = 64;

// How many values the low 24 bits of a word have: above them stand the mask and the flags.
const LOW: u32 = 1 << 24;

/// The instances in a buffer's bytes, read in place, one after the other.
/// (VkAccelerationStructureGeometryInstancesDataKHR)
#[derive(Debug, Drop)]
pub struct InstanceView<'a> {
    bytes: &'a [u8],
    start: u64,
}

impl<'a> Model for InstanceView<'a> {
    ghost use Rattle.ray_bytes.specs.Views.{Row};

    ghost Value = { Row };

    ghost view = { λ v. record { bytes = v.bytes.now; start = v.start } };
}

impl<'a> InstanceView<'a> {
    /// The instances of 64 bytes from `start` on.
    pub fn new(bytes: &'a [u8], start: u64) -> InstanceView<'a>
        ensures { result ≡ record { bytes = bytes.now; start = start } }
    {
        InstanceView { bytes, start }
    }

    /// Instance `i`. None exactly where it isn't whole.
    pub fn get(&self, i: u32) -> Option<InstanceRecord>
        ensures { let v = self.now in
            result ≡ option_map instance_of (record_at v.bytes v.start 64 64 i) }
    {
        let part = slice(self.bytes, self.start, SIZE, SIZE, u64::from(i))?;
        Some(instance(part))
    }

    /// The bytes of the first `count` instances, up to the first that isn't whole.
    pub fn parts(&self, count: u32) -> Parts<'a>
        ensures value { let v = self.now in
            result ≡ records_from v.bytes v.start 64 64 0 count }
        ensures first { let v = self.now in
            AreFirst (record_at v.bytes v.start 64 64) count result }
        ensures sized { All (λ part. length part ≡ 64) result }
    {
        Parts::new(self.bytes, self.start, SIZE, SIZE, count)
    }
}

// The instance in the first 64 bytes.
fn instance(bytes: &[u8]) -> InstanceRecord
    requires { 64 ≤ length bytes.now }
    ensures { result ≡ instance_of bytes.now }
{
    let identity = word(bytes, 48);
    let binding = word(bytes, 52);
    InstanceRecord {
        rows: transform(bytes),
        custom: identity % LOW,
        mask: (identity / LOW) as u8,
        sbt: binding % LOW,
        flags: (binding / LOW) as u8,
        reference: long(bytes, 56),
    }
}
